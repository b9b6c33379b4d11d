//! Texts that are cut into lines of tokens and written out again, against texts by hand.

use std::alloc::Global;
use std::test::Fail;
use xc_base::{Bytes, List, cut_lines, push_line};

fn canonical(alloc: Global, text: &[u8]) -> Result<Bytes, Fail> {
    let lines = cut_lines(alloc, text, 5000)?;
    let mut written = List::new(alloc);
    for row in 0..lines.len() {
        push_line(&mut written, lines.lexemes(alloc, row)?.as_slice())?;
    }
    Ok(written)
}

#[test]
fn texts_are_written_with_few_blanks(rt: HostRuntime) -> Result<(), Fail> {
    let table: [(&[u8], &[u8]); 6] = [
        (b"", b""),
        (b"\r\n\ta   b\r\n\n  c\r\n", b"a b\nc\n"),
        (b"# all of it\nx#y\n#", b"x\n"),
        (b"a:= b -> c!=d", b"a:=b->c!=d\n"),
        (b"! != - -> : :=", b"!!=-->::=\n"),
        (b" a.b/c_9 ( 1, - 2)", b"a.b/c_9(1,-2)\n"),
    ];
    for (text, expected) in table.iter() {
        assert_eq!(rt; canonical(rt.alloc(), text)?.as_slice(), *expected);
    }
    Ok(())
}
