//! Viewpoints as they are copied, against a text by hand.

use std::alloc::Global;
use std::test::Fail;
use xc_base::cut_lines;
use xc_view::{View, read};

pub(crate) fn view_of(alloc: Global, text: &str) -> Result<View, Fail> {
    let lines = cut_lines(alloc, text.as_bytes(), 1_048_576)?;
    Ok(read(alloc, &lines)?)
}

// The kinds of lines behind the variables stand in any order, and are printed kind by kind.
#[test]
fn a_copied_view_has_the_canonical_text(rt: HostRuntime) -> Result<(), Fail> {
    let text =
        " view\tmix # a comment\r\n\nlattice dir/two.lat\nvar x  a b c\nvar y a b c # three\ncommand stay with T when ! ( ( x = y ) | (y != a) ) do skip\nprop q F when x=b & ( y=a | y=b )\ninit( x!=y )\nprop p T when(x=a)\ncommand turn with N when(x=b)do x := y ;y:= prev x\nprop q T when true\n";
    let expected =
        b"view mix\nlattice dir/two.lat\nvar x a b c\nvar y a b c\ninit x!=y\nprop q F when x=b&(y=a|y=b)\nprop p T when x=a\nprop q T when true\ncommand stay with T when!(x=y|y!=a)do skip\ncommand turn with N when x=b do x:=y;y:=prev x\n";
    let copy = view_of(rt.alloc(), text)?.copy(rt.alloc())?;
    let printed = xc_view_text::print(rt.alloc(), &copy)?;
    assert_eq!(rt; printed.as_slice(), expected.as_slice());
    Ok(())
}
