//! The files of a number and a size, against texts by hand.

use std::alloc::Global;
use std::test::Fail;
use xc_base::{MemoryShelf, Shelf};
use xc_gen::make;

const LEFT: &str =
    "view left\nlattice chain.lat\nvar b0 0 1\nvar b1 0 1\nvar b2 0 1\nvar b3 0 1\ninit b0=0&b1=0&b2=0&b3=0\nprop last T when b3=1\ncommand set0 with T when b0=0 do b0:=1\ncommand set1 with T when b0=1&b1=0 do b1:=1\ncommand set2 with T when b0=1&b1=1&b2=0 do b2:=1\ncommand set3 with M when b0=1&b1=1&b2=1&b3=0 do b3:=1\n";

const RIGHT: &str =
    "view right\nlattice diamond.lat\nvar b0 0 1\nvar b1 0 1\nvar b2 0 1\nvar b3 0 1\ninit b0=0&b1=0&b2=0&b3=0\nprop last T when b3=1\ncommand set0 with N when b0=0 do b0:=1\ncommand set1 with T when b0=1&b1=0 do b1:=1\ncommand set2 with T when b0=1&b1=1&b2=0 do b2:=1\ncommand set3 with T when b0=1&b1=1&b2=1&b3=0 do b3:=1\n";

const SIGMAP: &str =
    "map gen\nuse left left.view\nuse right right.view\nvar b0 0 1\nvar b1 0 1\nvar b2 0 1\nvar b3 0 1\nprop last\nsend left b0 b0\nsend left b1 b1\nsend left b2 b2\nsend left b3 b3\nsend right b0 b0\nsend right b1 b1\nsend right b2 b2\nsend right b3 b3\ntell left last last\ntell right last last\n";

const CHAIN: &str =
    "lattice chain\nelements F M T\nbelow F M\nbelow M T\nnot F T\nnot M M\nnot T F\n";

const DIAMOND: &str =
    "lattice diamond\nelements F N B T\nbelow F N\nbelow F B\nbelow N T\nbelow B T\nnot F T\nnot N N\nnot B B\nnot T F\n";

// Whether the shelf gives that text by that name.
fn has_text(alloc: Global, shelf: &mut MemoryShelf, name: &str, expected: &str) -> bool {
    shelf
        .load(alloc, name, 1_048_576)
        .is_ok_and(|bytes| bytes.as_slice() == expected.as_bytes())
}

#[test]
fn the_files_of_four_bits(rt: HostRuntime) -> Result<(), Fail> {
    let table = [
        ("chain.lat", CHAIN),
        ("diamond.lat", DIAMOND),
        ("left.view", LEFT),
        ("right.view", RIGHT),
        ("gen.map", SIGMAP),
        ("gen.ctl", "EF last\nEG !last\nAF last\nAG EF last\n"),
    ];
    let mut shelf = make(rt.alloc(), 7, 4)?;
    for (name, expected) in table {
        assert!(rt; has_text(rt.alloc(), &mut shelf, name, expected), "{name}");
    }
    assert!(rt; !has_text(rt.alloc(), &mut shelf, "two.lat", ""));
    Ok(())
}
