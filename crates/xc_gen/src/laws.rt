ghost use Rattle.std.specs.Prelude.{ℕ};
ghost use Rattle.xc_gen.specs.declared.side.Side.{Side};
ghost use Rattle.xc_gen.specs.Links.{UsesBothViews, NamesItsLattice};
ghost use Rattle.xc_gen.specs.Naming.{AreNamed, IsSteady};

/// What a load finds among the files that are generated, by each name; and that a shelf of them is steady.
pub fn generated_files_are_named()
    ensures named { (number size : ℕ) → AreNamed number size }
    ensures steady { (number size : ℕ) → IsSteady number size }
{}

/// The files that are generated name each other: the map uses the two views, and each view its lattice.
pub fn generated_files_name_each_other()
    ensures uses { (size : ℕ) → UsesBothViews size }
    ensures lattices { (side : Side) (number size : ℕ) → NamesItsLattice side number size }
{}
