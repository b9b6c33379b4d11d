//! The calls of an algebra through its bound: at tables of each size, at copies, and at a product.

ghost use Rattle.std.specs.Prelude.{◌<◌};
ghost use Rattle.xc_alg.specs.Products.{product};

use std::alloc::{AllocError, Global};
use std::fmt::Write;
use std::test::Fail;
use xc_alg::{Algebra, AnyTable, implies};
use xc_base::{List, cut_lines};
use xc_lattice::{Lattice, read};
use xc_product::Product;

/// The file of a chain, each element of which is negated by the one that stands as far from the other end.
fn chain_file(alloc: Global, size: u8) -> Result<String, AllocError> {
    let mut elements = String::new(alloc);
    let mut more = String::new(alloc);
    for a in 0..size {
        write!(elements, " e{a}")?;
        if a > 0 {
            write!(more, "below e{} e{a}\n", a - 1)?;
        }
        write!(more, "not e{a} e{}\n", size - 1 - a)?;
    }
    format!(in alloc; "lattice chain\nelements{elements}\n{more}")
}

fn chain(alloc: Global, size: u8) -> Result<Lattice, Fail> {
    let text = chain_file(alloc, size)?;
    let lines = cut_lines(alloc, text.as_bytes(), 1_048_576)?;
    Ok(read(alloc, &lines)?)
}

// Of an element and each other one: the meet, the join, the implication, and a `<` where the first is below.
fn element_told<A: Algebra>(alloc: Global, algebra: &A, a: u16) -> Result<String, AllocError>
    requires { a < (product (A.parts algebra.now)).size }
{
    let mut text = String::new(alloc);
    for b in 0..algebra.size() {
        let (meet, join) = (algebra.meet(a, b), algebra.join(a, b));
        let implied = implies(algebra, a, b);
        let below = if algebra.le(a, b) { "<" } else { " " };
        write!(text, "{meet}{join}{implied}{below}")?;
    }
    Ok(text)
}

fn told<A: Algebra>(alloc: Global, algebra: &A) -> Result<String, AllocError> {
    let mut text = String::new(alloc);
    for a in 0..algebra.size() {
        let element = element_told(alloc, algebra, a)?;
        write!(text, "{}: {element}\n", algebra.neg(a))?;
    }
    Ok(text)
}

#[test]
fn tables_of_a_chain(rt: HostRuntime) -> Result<(), Fail> {
    let expected = "2: 002<012<022<
1: 011 111<122<
0: 020 121 222<
";
    let lattice = chain(rt.alloc(), 3)?;
    assert!(rt; lattice.size() <= 4);
    assert_eq!(rt; told(rt.alloc(), &lattice.table::<4>())?.as_str(), expected);
    let any = lattice.any(rt.alloc())?;
    assert_eq!(rt; told(rt.alloc(), &any)?.as_str(), expected);
    Ok(())
}

// Chains of 16 and of 64 elements are the greatest with tables of their size.
#[test]
fn copies_of_large_tables(rt: HostRuntime) -> Result<(), Fail> {
    for size in [4, 16, 64] {
        let lattice = chain(rt.alloc(), size)?.copy(rt.alloc())?;
        let table = lattice.any(rt.alloc())?.copy(rt.alloc())?;
        assert_eq!(rt; table.size(), u16::from(size));
        assert_eq!(rt; table.neg(table.bottom()), table.top());
    }
    Ok(())
}

fn tables(alloc: Global, sizes: &[u8]) -> Result<List<AnyTable>, Fail> {
    let mut tables = List::new(alloc);
    for size in sizes {
        tables.push(chain(alloc, *size)?.any(alloc)?)?;
    }
    Ok(tables)
}

// An element of the first and one of the second: the code is three times the first and the second.
#[test]
fn a_product_of_two_chains(rt: HostRuntime) -> Result<(), Fail> {
    let parts = tables(rt.alloc(), &[2, 3])?;
    assert_eq!(rt; parts.len(), 2);
    let product = Product::of(rt.alloc(), parts)?.copy(rt.alloc())?;
    assert_eq!(rt; product.height(), 3);
    assert_eq!(rt;
        told(rt.alloc(), &product)?.as_str(),
        "5: 005<015<025<035<045<055<\n4: 014 114<125<044 144<155<\n3: 023 124 225<053 154 255<\n2: 032 042 052 335<345<355<\n1: 041 141 152 344 444<455<\n0: 050 151 252 353 454 555<\n"
    );
    Ok(())
}
