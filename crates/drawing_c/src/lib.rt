// The entry of the drawing program as it is exported for C: `drawing` has the function, what is meant and the claims. C gives the sheet and the
// buffer each as a pointer and a length; drawing/vorzhadell.h declares it. Assumes nothing; nothing proves what the caller passes, so the header
// says what it owes.
#![tactic(auto)]

ghost use Rattle.std.specs.Prelude.{◌≡◌};
ghost use Rattle.drawing.specs.Drawing.{drawing, drawn};

// The answer and the bytes of `drawing::vorzhadell_draw`.
#[unsafe(no_mangle)]
pub extern "C" fn vorzhadell_draw(sheet: &[u8], buffer: &mut [u8]) -> u64
    ensures { drawing result buffer.new ≡ drawn sheet.now buffer.old }
{
    drawing::vorzhadell_draw(sheet, buffer)
}
