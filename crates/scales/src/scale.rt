// What a scale is.
ghost use Rattle.std.specs.Prelude.{◌≡◌};
ghost use Rattle.scales.specs.Lattice.{Lattice, Laws};

// Marks that form a lattice with a complement, and a mark for each code.
pub trait Scale: Copy {
    ghost ops: { Lattice Self };

    fn bottom() -> Self
        ensures { result ≡ ops.bottom };

    fn top() -> Self
        ensures { result ≡ ops.top };

    fn complement(self) -> Self
        ensures { result ≡ ops.complement self };

    fn meet(self, other: Self) -> Self
        ensures { result ≡ ops.meet self other };

    fn join(self, other: Self) -> Self
        ensures { result ≡ ops.join self other };

    // The mark that a code is read as.
    fn reading(code: i8) -> Self
        ensures { result ≡ ops.reading code };

    ghost kept: { Laws ops };
}
