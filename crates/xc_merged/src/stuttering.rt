//! What a viewpoint gives to steps that it does not see.

ghost use Rattle.std.specs.Prelude.{◌≡◌, ◌==◌, ◌<◌, ◌≤◌, true, length, map, if◌then◌else◌};
ghost use Rattle.std.specs.List.{list_all};
ghost use Rattle.xc_alg.specs.Bounds.{joined};
ghost use Rattle.xc_alg.specs.Products.{product};
ghost use Rattle.xc_base.specs.Names.{is_among, place_of};
ghost use Rattle.xc_lattice.specs.Values.{value_of as lattice_of};
ghost use Rattle.xc_merged.specs.Elements.{stutters_from};

use crate::elements::element;
use xc_alg::Algebra;
use xc_lattice::Lattice;
use xc_sigmap_lines::Stutter;

/// A code joined with the value of a line, where the line is on that viewpoint.
#[tactic(auto, using(std::proofs::lemmas::Grind::common_steps, xc_base::proofs::Naming::among_in_range))]
fn with_stutter<A: Algebra>(
    algebra: &A,
    lattice: &Lattice,
    number: usize,
    line: &Stutter,
    sum: u16,
) -> u16
    requires size { (product (A.parts algebra.now)).size ≡ length (lattice_of lattice.now).names }
    requires known { (line.now.viewpoint == number) ≡ true → is_among (lattice_of lattice.now).names line.now.value ≡ true }
    requires below { sum < (product (A.parts algebra.now)).size }
    ensures below { result < (product (A.parts algebra.now)).size }
    ensures sum { result ≡ (if line.now.viewpoint == number then (product (A.parts algebra.now)).join (place_of (lattice_of lattice.now).names line.now.value) sum else sum) }
{
    if usize::from(line.viewpoint) == number {
        algebra.join(u16::from(element(lattice, &line.value)), sum)
    } else {
        sum
    }
}

/// The join of the stutter values of a viewpoint.
#[tactic(auto, using(std::proofs::lemmas::Grind::common_steps, crate::proofs::Tabling::no_stutter, crate::proofs::Tabling::stutter_among))]
pub(crate) fn stutter_of<A: Algebra>(
    algebra: &A,
    lattice: &Lattice,
    lines: &[Stutter],
    number: usize,
    bottom: u8,
) -> u8
    requires size { (product (A.parts algebra.now)).size ≡ length (lattice_of lattice.now).names }
    requires small { (product (A.parts algebra.now)).size ≤ 256 }
    requires known { list_all (is_among (lattice_of lattice.now).names) (stutters_from number lines.now 0) ≡ true }
    requires bottom { bottom ≡ (product (A.parts algebra.now)).bottom }
    requires below { bottom < (product (A.parts algebra.now)).size }
    ensures { result ≡ joined (product (A.parts algebra.now)) (map (place_of (lattice_of lattice.now).names) (stutters_from number lines.now 0)) }
{
    let mut sum = u16::from(bottom);
    for i in (0..lines.len()).rev() {
        sum = with_stutter(algebra, lattice, number, &lines[i], sum);
    }
    sum as u8
}
