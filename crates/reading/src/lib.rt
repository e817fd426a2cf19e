// Reading one sheet or one log from a reader, for each program that takes one from standard input. No contract can say which bytes come from
// there; what is counted is within the sheet. Assumes nothing.
#![tactic(auto)]

ghost use Rattle.std.specs.Prelude.{◌≡◌, length, replicate};
ghost use Rattle.reading.specs.Reading.{Within};

use std::io::Read;

// A read that failed.
#[derive(Clone, Copy)]
pub struct ReadFailed;

// Reads until the input ends, at the first read that gives no byte, or the sheet is full: how many bytes came.
pub fn read_sheet<R: Read>(from: &mut R, sheet: &mut [u8]) -> Result<usize, ReadFailed>
    ensures { Within 0 (length sheet.new) result }
{
    let mut done: usize = 0;
    // By index: the place moves by as many bytes as came.
    while done < sheet.len() {
        let n = from.read(&mut sheet[done..]).map_err(|_| ReadFailed)?;
        if n == 0 {
            return Ok(done);
        }
        done += n;
    }
    Ok(done)
}

// Room for a sheet, and for one byte more: enough to know that there are too many.
pub fn no_bytes() -> [u8; 8193]
    ensures result_len { length result ≡ 8193 }
    ensures value { result ≡ replicate 8193 0 }
{
    [0u8; 8193]
}
