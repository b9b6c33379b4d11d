ghost use Rattle.std.specs.Prelude.{◌≡◌, true};
ghost use Rattle.xc_theory.specs.Codes.{total};
ghost use Rattle.xc_alg.specs.Products.{product};
ghost use Rattle.xc_merge.specs.Merges.{parts_of, names_of_parts};
ghost use Rattle.xc_machine.specs.Machines.{merge_of};
ghost use Rattle.xc_ctl.specs.Trees.{is_fit, sizes_of};
ghost use Rattle.xc_report.specs.Reports.{signature_of};

use xc_alg::laws_hold;
use xc_machine::Machine;
use xc_product::Product;

/// What formulas over a machine are about is fit for them: to be read, and to be printed.
pub fn formulas_fit(machine: &Machine)
    ensures fit { is_fit (signature_of (merge_of machine.now)) ≡ true }
    ensures size { total (sizes_of (names_of_parts (merge_of machine.now))) ≡ (product (parts_of (merge_of machine.now))).size }
{
    machine.is_framed();
    laws_hold::<Product>();
    let _count = machine.product().parts();
}
