// The test program of rule text: for each text one line with the text, ` => `, and either the refusal and
// its place or the tokens of the formula in postfix order, parted by one blank. The file `stdout` has the
// lines that document 01 asks for. A byte outside 32..126, or a backslash, is written as a backslash
// and two hexadecimal digits.
#![tactic(auto)]

use lexer::{NAME, Tokens};
use syntax::{Rule, RuleAnswer};
use test_kit::{no_text, put_times, word_digits, write_bytes, write_refusal};

// Writes one byte as it is.
fn write_byte(rt: &impl Print, b: u8) {
    let one = [b];
    write_bytes(rt, &one);
}

// Writes a byte as a backslash and two hexadecimal digits.
fn write_code(rt: &impl Print, b: u8) {
    let digits = word_digits(b as u32);
    write_byte(rt, b'\\');
    write_bytes(rt, &digits[6..]);
}

// Writes a byte so that a line of text shows it.
fn write_shown(rt: &impl Print, b: u8) {
    match b {
        b'\\' => write_code(rt, b),
        32..=126 => write_byte(rt, b),
        _ => write_code(rt, b),
    }
}

// Writes a text, each byte so that a line shows it.
fn write_text(rt: &impl Print, text: &[u8]) {
    for b in text {
        write_shown(rt, *b);
    }
}

// Writes the bytes of a token, where they lie in the text.
fn write_token(rt: &impl Print, text: &[u8], start: usize, len: usize) {
    if start <= text.len() {
        if len <= text.len() - start {
            let end = start + len;
            write_text(rt, &text[start..end]);
        }
    }
}

// Writes a blank before every token but the first.
fn write_gap(rt: &impl Print, i: usize) {
    if 0 < i {
        write_byte(rt, b' ');
    }
}

// The first name among the tokens from a place on; 256 where there is none.
fn name_from(kinds: &[u8; 256], from: usize) -> usize {
    for t in from..256 {
        if kinds[t] == NAME {
            return t;
        }
    }
    256
}

// Writes a sign or constant by its kind.
fn write_sign(rt: &impl Print, kind: u8) {
    match kind {
        0 => write_bytes(rt, b"->"),
        1 => write_bytes(rt, b"<->"),
        2 => write_byte(rt, b'|'),
        3 => write_byte(rt, b'&'),
        4 => write_byte(rt, b'+'),
        5 => write_byte(rt, b'*'),
        6 => write_byte(rt, b'-'),
        7 => write_byte(rt, b'~'),
        10 => write_bytes(rt, b"=0"),
        12 => write_byte(rt, b'T'),
        13 => write_byte(rt, b'F'),
        14 => write_byte(rt, b'C'),
        15 => write_bytes(rt, b"<="),
        16 => write_byte(rt, b'0'),
        17 => write_byte(rt, b'1'),
        _ => write_byte(rt, b'?'),
    }
}

// Writes the name at token t of a rule.
fn write_name(rt: &impl Print, text: &[u8], tokens: Tokens, t: usize) {
    if t < 256 {
        write_token(
            rt,
            text,
            usize::from(tokens.starts[t]),
            usize::from(tokens.lens[t]),
        );
    }
}

// Writes a formula in its postfix order, whose names are those of the text in their order.
fn write_formula(rt: &impl Print, text: &[u8], rule: Rule) {
    let mut t: usize = 0;
    for (i, kind) in rule.order.iter().take(rule.len).enumerate() {
        write_gap(rt, i);
        if *kind == NAME {
            let at = name_from(&rule.tokens.kinds, t);
            write_name(rt, text, rule.tokens, at);
            t = after(at);
        } else {
            write_sign(rt, *kind);
        }
    }
}

// The place after a token, at most 256.
fn after(t: usize) -> usize {
    t.min(255) + 1
}

// Writes the line of a text.
fn show(rt: &impl Print, text: &[u8]) {
    write_text(rt, text);
    write_bytes(rt, b" => ");
    let rule = syntax::read_rule(text);
    let answer = rule.answer;
    match answer {
        RuleAnswer::Formula => write_formula(rt, text, rule),
        RuleAnswer::TooLong => write_refusal(rt, 2, 256),
        RuleAnswer::NoToken => write_refusal(rt, 1, 0),
        RuleAnswer::ForeignByte(i) => write_refusal(rt, 3, i),
        RuleAnswer::LongName(i) => write_refusal(rt, 4, i),
        RuleAnswer::Measured(i) => write_refusal(rt, 5, i),
        RuleAnswer::GrammarAt(i) => write_refusal(rt, 6, i),
    }
    write_byte(rt, b'\n');
}

// Shows a part of a list of texts.
fn show_part(rt: &impl Print, list: &[u8], start: usize, end: usize) {
    if start <= end {
        if end <= list.len() {
            show(rt, &list[start..end]);
        }
    }
}

// Shows each text of a list, in which byte 10 ends each.
fn show_each(rt: &impl Print, list: &[u8]) {
    let mut start: usize = 0;
    for (i, b) in list.iter().enumerate() {
        if *b == b'\n' {
            show_part(rt, list, start, i);
            start = i + 1;
        }
    }
}

// Shows the text of n times `unit`, then `last`, then m times a byte.
fn chain(rt: &impl Print, unit: &[u8], n: usize, last: &[u8], after: u8, m: usize) {
    let mut text = no_text();
    let one = [after];
    let start = put_times(&mut text, 0, unit, n);
    let end = put_times(&mut text, start, last, 1);
    let all = put_times(&mut text, end, &one, m);
    show(rt, &text[0..all]);
}

// Shows the text of n times one byte.
fn run(rt: &impl Print, b: u8, n: usize) {
    chain(rt, b"", 0, b"", b, n);
}

// Shows each of the 256 byte values as a text by itself: every class of bytes.
fn every_byte(rt: &impl Print) {
    for b in 0..=255 {
        show_byte(rt, b);
    }
}

// Shows the text of one byte.
fn show_byte(rt: &impl Print, b: u8) {
    let one = [b];
    show(rt, &one);
}

// Document 01, 'Places'.
fn document_places(rt: &impl Print) {
    show_each(
        rt,
        b"C(a\n\
        a\n\
        a & b=0\n\
        (a=0)*b\n\
        a<=m b\n\
        a=  0\n",
    );
}

// Document 01, 'Worked sheets': the rules of P1 to P12.
fn document_sheets(rt: &impl Print) {
    show_each(
        rt,
        b"T\n\
        C(raw,cooked)\n\
        ~C(raw,cooked)\n\
        ~raw=0\n\
        ~cooked=0\n\
        <=(raw,cooked)\n\
        C(a,a) & a=0\n\
        1=0\n\
        C(1,1)\n\
        a=0 | ~a=0\n\
        ~(C(a,b) <-> C(b,a))\n\
        F -> F -> F\n\
        F->F->F\n\
        T | F & F\n",
    );
}

// The longest match at '<': '<=m' and what only looks like it.
fn measured_signs(rt: &impl Print) {
    show_each(
        rt,
        b"<=max(a,b)\n\
        <= m(a,b)\n\
        <= max(a,b)\n\
        <=\tm(a,b)\n\
        <=M(a,b)\n\
        <=m\n\
        <=m(a,b)\n\
        <=mm\n\
        a<=mb\n\
        T&<=m(a,b)\n\
        (<=m\n\
        <=(m,a)\n\
        <=(max,min)\n\
        m<=(a,b)\n\
        <= (a,b)\n\
        <=  ( a , b )\n\
        < =(a,b)\n\
        <==(a,b)\n",
    );
}

// '=0' and '= 0': what is cut, and the runs that follow them.
fn zero_signs(rt: &impl Print) {
    show_each(
        rt,
        b"a=01\n\
        a=00\n\
        a=0b\n\
        a=0T\n\
        a= 01\n\
        a= 00\n\
        a= 0b\n\
        01=0\n\
        Ta=0\n\
        0=0\n\
        00=0\n\
        10=0\n\
        a0=0\n\
        0= 0\n\
        a=0\n\
        a= 0\n\
        a=00000000000000000000\n\
        a= 00000000000000000000\n\
        a=000000000000000000\n\
        a=00000000000000000\n\
        a=0 0\n\
        a=0=0\n\
        a=0 =0\n\
        a=0&0=0\n\
        =0\n\
        = 0\n\
        =00\n\
        T=0\n\
        C=0\n\
        (a)=0\n",
    );
}

// Blanks around '=': free before it, one space after it.
fn blanks_at_zero(rt: &impl Print) {
    show_each(
        rt,
        b"a=\t0\n\
        a= \t0\n\
        a=\t 0\n\
        a=   0\n\
        a=\n\
        a= \n\
        a=1\n\
        a=b\n\
        a= b\n\
        a=O\n\
        a==0\n\
        a=-0\n\
        a=(0)\n\
        a =0\n\
        a   = 0\n\
        a\t=0\n\
        a \t = 0\n\
        a =\t0\n\
        a =  0\n\
        =\n\
        = \n\
        a=0\t\n\
        a= 0 \n",
    );
}

// '<', '>' and '-': the arrows, and the '<' and '>' that open no sign.
fn arrows(rt: &impl Print) {
    show_each(
        rt,
        b"a>b\n\
        >\n\
        >T\n\
        a<b\n\
        <\n\
        T<\n\
        T>\n\
        a<-b\n\
        T<-T\n\
        T - > T\n\
        T- >T\n\
        T-->T\n\
        T->->T\n\
        T<-->T\n\
        T< ->T\n\
        T<- >T\n\
        T=>T\n\
        T>=T\n\
        a<>b\n\
        a<=b\n\
        T<=>F\n\
        T<=->F\n\
        T<->F\n\
        T <-> F\n\
        T->F\n\
        a<->b\n\
        a->b=0\n\
        -->\n\
        ->T\n\
        <->T\n\
        T->\n\
        T<->\n\
        T<<->F\n",
    );
}

// Runs: constants stand alone, every other run is a name of up to 16 bytes.
fn names(rt: &impl Print) {
    show_each(
        rt,
        b"abcdefghijklmnop=0\n\
        abcdefghijklmnopq=0\n\
        0000000000000000=0\n\
        00000000000000000=0\n\
        00000000000000000\n\
        TTTTTTTTTTTTTTTT=0\n\
        TTTTTTTTTTTTTTTTT\n\
        11111111111111111=0\n\
        CCCCCCCCCCCCCCCCC(a,b)\n\
        FFFFFFFFFFFFFFFFF\n\
        C(a,abcdefghijklmnopq)\n\
        C(abcdefghijklmnop,ABCDEFGHIJKLMNOP)\n\
        T & 00000000000000000\n\
        abcdefghijklmnop q=0\n\
        CC=0\n\
        C1=0\n\
        T0=0\n\
        F1=0\n\
        TF=0\n\
        t=0\n\
        f=0\n\
        c=0\n\
        O=0\n\
        2=0\n\
        9z=0\n\
        Z=0\n\
        a b=0\n\
        0 1=0\n",
    );
}

// Refusals 3, 4 and 5 compete by place, and all come before 6.
fn first_place(rt: &impl Print) {
    show_each(
        rt,
        b"a & $\n\
        a a $\n\
        T T $\n\
        $ a<=m b\n\
        a<=m $\n\
        abcdefghijklmnopqrst <=m\n\
        <=m abcdefghijklmnopqrst\n\
        $abcdefghijklmnopqrst\n\
        abcdefghijklmnopqrst$\n\
        abcdefghijklmnopq abcdefghijklmnopq\n\
        <=m <=m\n\
        $ $\n\
        ))) #\n\
        a = b <=m\n\
        <=m$\n\
        <=m=\n\
        T T T T <=m\n\
        () & abcdefghijklmnopq\n\
        a=0=\n\
        T>abcdefghijklmnopq\n",
    );
}

// Bytes of the class foreign, beside those of other classes.
fn foreign_bytes(rt: &impl Print) {
    show_each(
        rt,
        b"\x00\n\
        T\x00\n\
        \rT\n\
        T\r\n\
        T\x08\n\
        T\t\n\
        T\x0b\n\
        T\x0c\n\
        T\x1f\n\
        T \n\
        T\x7f\n\
        T\x80\n\
        T\xa0\n\
        T\xc3\xa9\n\
        T\xff\n\
        \xff\n\
        a_b=0\n\
        _a=0\n\
        a.b=0\n\
        a=0.\n\
        T#\n\
        #T\n",
    );
}

// Byte 10 is foreign in a rule text.
fn line_ends(rt: &impl Print) {
    show(rt, b"\nT");
    show(rt, b"T\n");
    show(rt, b"T\nF");
    show(rt, b"T\r\n");
}

// Byte 13 is a blank (document 02, T-01), and no space of "= 0".
fn office_ends(rt: &impl Print) {
    show_each(
        rt,
        b"a=\r0\n\
        a= \r0\n\
        a\r=\r0\n\
        a\rb=0\n\
        a\r=0\r\n\
        \rC\r(\ra\r,\rb\r)\r\n\
        T-\r>T\n\
        \r\t \r\n",
    );
}

// Printed marks of the class foreign.
fn foreign_marks(rt: &impl Print) {
    show_each(
        rt,
        b"C[a,b]\n\
        T^F\n\
        {T}\n\
        !T\n\
        T;\n\
        T/F\n\
        a/b=0\n\
        T:F\n\
        @a=0\n\
        a`=0\n\
        a'=0\n\
        \"T\"\n\
        $\n\
        %\n\
        T?\n\
        T\\F\n\
        \\\n\
        ]\n\
        }\n\
        T&&$\n\
        a!=0\n",
    );
}

// Texts of blanks only, and blanks about a rule.
fn blank_texts(rt: &impl Print) {
    show_each(
        rt,
        b"\n\
        \x20\n\
        \t\n\
        \x20\t \n\
        \x20       \n\
        \x20T\n\
        T  \n\
        \tT\t\n\
        \x20  T   \n\
        \t \tT&\t F\n\
        \x20a\n\
        \x20 )\n\
        \x20$ \n",
    );
}

// A parenthesis may open a term or a formula: both are read on until a token decides.
fn either_sort(rt: &impl Print) {
    show_each(
        rt,
        b"(a=0)*b\n\
        ((a)&\n\
        ((a)|T\n\
        (a)\n\
        (T)=0\n\
        (a*(b=0))\n\
        -(a=0\n\
        (~a)\n\
        (-a)&T\n\
        a+(b=0)\n\
        C(a=0,b)\n\
        (a|b=0)\n\
        ((a)\n\
        ((a)=0\n\
        ((a)=0)\n\
        ((a)=0)&T\n\
        ((a)=0)=0\n\
        (a*(b)=0)\n\
        -(a)=0\n\
        (~a=0)\n\
        (-a)=0&T\n\
        a+(b)=0\n\
        (a=0|b=0)\n\
        (a)&T\n\
        (a)|T\n\
        (a)->T\n\
        (a)<->T\n\
        (a)T\n",
    );
}

// Parentheses that turn out to hold a term.
fn terms_in_parentheses(rt: &impl Print) {
    show_each(
        rt,
        b"((a))=0\n\
        ((a))\n\
        (a)*b=0\n\
        ((a)*b)=0\n\
        ((a)*b=0)\n\
        (a+b)&T\n\
        (a+b)=0&T\n\
        (a+(b)=0)\n\
        (a)+(b)=0\n\
        ((a)+b)*c=0\n\
        (a,b)\n\
        ~(a)\n\
        ~(a)=0\n\
        ~(a)&T\n\
        (~(a)=0)\n\
        -(T)\n\
        -(~a)\n\
        -(C(a,b))\n\
        a*(T)\n\
        a*(~b=0)\n\
        a*(b&c)\n\
        a*(b\n\
        C((a),(b))\n\
        C((a=0),b)\n\
        C((T),b)\n\
        <=((a+b)*c,-(d))\n\
        ((((a))))=0\n\
        ((((a)))=0)\n\
        ((((a))=0))\n\
        ((((a)=0)))\n\
        ((((a=0))))\n\
        (0)=0\n\
        (1)\n",
    );
}

// Parentheses that hold a formula, and pairs that do not match.
fn formulas_in_parentheses(rt: &impl Print) {
    show_each(
        rt,
        b"(T)\n\
        ((T))\n\
        (T)&(F)\n\
        (T&F)=0\n\
        (T)*a\n\
        (T)+a\n\
        (T)T\n\
        (C(a,b))\n\
        (C(a,b))=0\n\
        (C(a,b))*c\n\
        (<=(a,b))+c=0\n\
        (a&b=0)\n\
        (a=0&b\n\
        (a=0&b)\n\
        (a=0&b=0)\n\
        (a=0,b)\n\
        (a=0)=0\n\
        (a=0)-b\n\
        (\n\
        ((\n\
        ()\n\
        (()\n\
        )\n\
        (T\n\
        (T))\n\
        T)\n\
        (a\n\
        (a=0\n\
        (T&\n\
        (T&)\n\
        ( T )\n\
        (-T)\n\
        ~(T\n\
        ~()\n",
    );
}

// A text that ends early is refused at its length, blanks included.
fn early_ends(rt: &impl Print) {
    show_each(
        rt,
        b"a  \n\
        T& \n\
        T&\n\
        ~\n\
        ~ \n\
        -\n\
        - \n\
        -a\n\
        ~a\n\
        T&\t \n\
        C\n\
        C \n\
        C(\n\
        C( \n\
        C(a \n\
        C(a,\n\
        C(a, \n\
        C(a,b\n\
        C(a,b \n\
        (T \n\
        a+\n\
        a+ \n\
        a* \n\
        <=\n\
        <=(\n\
        <=(a,b\n\
        T->  \n\
        \x20 a\n",
    );
}

// '=0' takes the whole term before it.
fn zero_binding(rt: &impl Print) {
    show_each(
        rt,
        b"~a*b=0\n\
        -a*b=0\n\
        a+b=0&T\n\
        a=0*b\n\
        a=0+b\n\
        a=0-b\n\
        a=0~b\n\
        -a+b=0\n\
        a*-b=0\n\
        a+-b*c=0\n\
        -1*0+a=0\n\
        ~~T\n\
        --a=0\n\
        ~-a=0\n\
        -~a=0\n\
        ~~~F\n\
        ---a=0\n\
        ~a+b=0\n\
        ~T&F\n\
        ~(T&F)\n\
        ~a=0&b=0\n\
        ~a=0|T\n\
        ~T->F\n\
        ~T<->F\n\
        -(a+b)*c=0\n\
        -(a*b)+c=0\n\
        ~-a*-b=0\n\
        T&a+b=0\n\
        T|a*b=0\n\
        -T\n\
        -(a)*(b)=0\n",
    );
}

// Two binary signs of formulas, each against each.
fn level_pairs(rt: &impl Print) {
    show_each(
        rt,
        b"T->F->T\n\
        T->F<->T\n\
        T<->F->T\n\
        T<->F<->T\n\
        T->F|T\n\
        T|F->T\n\
        T<->F|T\n\
        T|F<->T\n\
        T->F&T\n\
        T&F->T\n\
        T<->F&T\n\
        T&F<->T\n\
        T|F|T\n\
        T|F&T\n\
        T&F|T\n\
        T&F&T\n\
        T->(F->T)\n\
        T->(F<->T)\n\
        T<->(F->T)\n\
        T|(F|T)\n\
        T&(F&T)\n\
        T&(F|T)\n\
        (T|F)&T\n\
        (T->F)|T\n\
        T|(F->T)\n\
        T->F|T&F\n\
        T&F|T->F\n\
        T|F&T<->F|T\n\
        T->F->T->F\n\
        T&~F|T\n\
        ~T|~F&~T\n",
    );
}

// '+' and '*' against each other and against the signs of formulas.
fn sign_pairs(rt: &impl Print) {
    show_each(
        rt,
        b"a+b+c=0\n\
        a+b*c=0\n\
        a*b+c=0\n\
        a*b*c=0\n\
        a+(b+c)=0\n\
        a*(b*c)=0\n\
        a*(b+c)=0\n\
        (a+b)*c=0\n\
        a*b+c*d=0\n\
        a+b*c+d=0\n\
        a+b=0|c+d=0\n\
        a+b=0&c+d=0\n\
        a+b=0->c+d=0\n\
        a+b=0<->c+d=0\n\
        a*b=0|c*d=0\n\
        a*b=0&c*d=0\n\
        a*b=0->c*d=0\n\
        a*b=0<->c*d=0\n\
        a+b|c=0\n\
        a*b&c=0\n\
        a*b->c=0\n\
        a+b<->c=0\n\
        T+a=0\n\
        T*a=0\n\
        a+T\n\
        a*T\n\
        a=0|b=0+c=0\n\
        T&a*b\n\
        T|a+b\n\
        C(a+b*c,(a+b)*c)\n",
    );
}

// C and <= want a parenthesis and two terms.
fn relations(rt: &impl Print) {
    show_each(
        rt,
        b"a<=(b,c)\n\
        C a\n\
        C(a)\n\
        C(a,b,c)\n\
        <=(a,b)=0\n\
        c(a,b)\n\
        C()\n\
        C(,)\n\
        C(,b)\n\
        C(a,)\n\
        C((a,b))\n\
        C((a,b),c)\n\
        C(a b)\n\
        C(a;b)\n\
        C(a,b)(\n\
        C(a,b)=0\n\
        C(a,b)*c\n\
        C(a,b)C(a,b)\n\
        C(T,a)\n\
        C(a,T)\n\
        C(C(a,b),c)\n\
        C(a,C(b,c))\n\
        C(~a,b)\n\
        C(a&b,c)\n\
        C(a,b&c)\n\
        C(a,b=0)\n\
        C<=(a,b)\n\
        <=C(a,b)\n\
        (C)(a,b)\n",
    );
}

// Relations that are read, and what may stand before and after them.
fn more_relations(rt: &impl Print) {
    show_each(
        rt,
        b"C(a,b)\n\
        C (a,b)\n\
        C( a , b )\n\
        C(0,1)\n\
        C(-a,-b)\n\
        C(a+b,c*d)\n\
        C(a,-(b))\n\
        <=(a,b)\n\
        <=(a+b,0)\n\
        <=(a)\n\
        <=(a,b,c)\n\
        <=a\n\
        <= a\n\
        <=<=(a,b)\n\
        <=(a,1)\n\
        ~<=(a,b)\n\
        -C(a,b)\n\
        -<=(a,b)\n\
        a C(a,b)\n\
        a*C(a,b)\n\
        T C(a,b)\n\
        T&C(a,b)\n\
        C(a,b)|<=(c,d)->C(e,f)\n\
        <=(a,b)&a=0\n\
        C(C,a)\n\
        C(a,C)\n\
        CC(a,b)\n\
        C(a,b)T\n",
    );
}

// Tokens that may not follow one another.
fn side_by_side(rt: &impl Print) {
    show_each(
        rt,
        b"T T\n\
        T F\n\
        TF\n\
        T(\n\
        T(T)\n\
        ,\n\
        T,F\n\
        0\n\
        1\n\
        0 1\n\
        F=0\n\
        T a=0\n\
        a T\n\
        a(b)=0\n\
        (a)(b)=0\n\
        a~b\n\
        T~T\n\
        a-b=0\n\
        T-T\n\
        T-> -T\n\
        *\n\
        +\n\
        &\n\
        |\n\
        &T\n\
        |T\n\
        *a=0\n\
        T&&T\n\
        T||T\n\
        T&|T\n\
        a**b=0\n\
        a++b=0\n\
        a+*b=0\n\
        a,b\n",
    );
}

// 256 bytes are read, 257 give 2, also where all are one byte.
fn limits_of_one_byte(rt: &impl Print) {
    run(rt, b' ', 0);
    run(rt, b' ', 255);
    run(rt, b' ', 256);
    run(rt, b' ', 257);
    run(rt, b'\t', 300);
    run(rt, b'$', 256);
    run(rt, b'$', 257);
    run(rt, b'a', 256);
    run(rt, b'a', 257);
    run(rt, b'(', 255);
    run(rt, b'(', 256);
    run(rt, b'(', 257);
    run(rt, b')', 256);
    run(rt, b')', 257);
    run(rt, b'~', 256);
    run(rt, b'-', 256);
    run(rt, b'\x00', 256);
    run(rt, b'=', 257);
}

// A rule of 256 bytes, blanks included, is read; one blank more gives 2.
fn limits_of_blanks(rt: &impl Print) {
    chain(rt, b"~", 255, b"T", b' ', 0);
    chain(rt, b"~", 255, b"T", b' ', 1);
    chain(rt, b"~", 254, b"T", b' ', 1);
    chain(rt, b" ", 255, b"T", b' ', 0);
    chain(rt, b" ", 256, b"T", b' ', 0);
    chain(rt, b" ", 0, b"T", b'\t', 255);
    chain(rt, b" ", 0, b"T", b'\t', 256);
    chain(rt, b"(", 255, b"", b' ', 1);
    chain(rt, b"~", 254, b"a", b' ', 1);
}

// The deepest nesting, whole and broken.
fn limits_of_nesting(rt: &impl Print) {
    chain(rt, b"(", 127, b"T", b')', 127);
    chain(rt, b"(", 127, b"T", b')', 126);
    chain(rt, b"(", 127, b"T", b')', 128);
    chain(rt, b"(", 128, b"T", b')', 127);
    chain(rt, b"(", 126, b"a", b')', 126);
    chain(rt, b"(", 126, b"a=0", b')', 126);
    chain(rt, b"(", 126, b"a=0", b')', 127);
    chain(rt, b"(", 127, b"a", b')', 128);
    chain(rt, b"(", 63, b"a", b')', 63);
}

// 255 prefix signs, and a refusal at the last byte.
fn limits_of_prefixes(rt: &impl Print) {
    chain(rt, b"-", 253, b"a=0", b' ', 0);
    chain(rt, b"~", 253, b"a=0", b' ', 0);
    chain(rt, b"~", 255, b"a", b' ', 0);
    chain(rt, b"~", 255, b")", b' ', 0);
    chain(rt, b"~", 255, b"$", b' ', 0);
    chain(rt, b"-", 255, b"T", b' ', 0);
}

// Binary signs, relations and refused tokens up to the last byte.
fn limits_of_chains(rt: &impl Print) {
    chain(rt, b"T&", 127, b"T", b' ', 1);
    chain(rt, b"T&", 127, b"T", b' ', 2);
    chain(rt, b"T|", 128, b"", b' ', 0);
    chain(rt, b"a=0&", 63, b"a= 0", b' ', 0);
    chain(rt, b"C(raw,cooked)&", 18, b"a= 0", b' ', 0);
    chain(rt, b"C(raw,cooked)&", 18, b"a= 0", b' ', 1);
    chain(rt, b"a+", 127, b"=0", b' ', 0);
}

// Chains of signs with an open parenthesis.
fn limits_of_pairs(rt: &impl Print) {
    chain(rt, b"~(", 85, b"T", b')', 85);
    chain(rt, b"-(", 84, b"a", b')', 84);
    chain(rt, b"T->(", 50, b"T", b')', 50);
    chain(rt, b"C(", 128, b"", b' ', 0);
    chain(rt, b"<=m", 85, b"", b' ', 1);
    chain(rt, b"<=m", 86, b"", b' ', 0);
}

// Every group of texts, then each byte value by itself.
fn main(rt: HostRuntime) {
    document_places(&rt);
    document_sheets(&rt);
    measured_signs(&rt);
    zero_signs(&rt);
    blanks_at_zero(&rt);
    arrows(&rt);
    names(&rt);
    first_place(&rt);
    foreign_bytes(&rt);
    line_ends(&rt);
    office_ends(&rt);
    foreign_marks(&rt);
    blank_texts(&rt);
    either_sort(&rt);
    terms_in_parentheses(&rt);
    formulas_in_parentheses(&rt);
    early_ends(&rt);
    zero_binding(&rt);
    level_pairs(&rt);
    sign_pairs(&rt);
    relations(&rt);
    more_relations(&rt);
    side_by_side(&rt);
    limits_of_one_byte(&rt);
    limits_of_blanks(&rt);
    limits_of_nesting(&rt);
    limits_of_prefixes(&rt);
    limits_of_chains(&rt);
    limits_of_pairs(&rt);
    every_byte(&rt);
}
