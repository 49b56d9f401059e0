//! Where symbols come from.

ghost use Rattle.std.specs.Prelude.{◌≡◌, ℕ, ◌+◌, ◌≤◌, ◌++◌, List, [], length, IfErr, OnOk};
ghost use Rattle.delta_mode.specs.inside.Listed.{IsWithin, list_of, are_first, left_in};

/// What gives symbols, one after the other.
pub trait SymbolSource {
    /// Why it gives no more.
    type Stop: Drop;

    /// What holds of the source between calls.
    ghost sound: { Self → Type 0 };

    /// These are the symbols that it has given.
    ghost has_given: { Self → List ℕ → Type 0 };

    /// How many it may still be asked for.
    ghost left: { Self → ℕ };

    /// The type of what no call changes.
    ghost Kept: { Type 0 };

    /// What no call changes, as what the symbols are read from.
    ghost kept: { Self → Kept };

    /// What is to be told of such a source where it stops.
    ghost stops: { Kept → Self.Stop → Type 0 };

    /// Gives the symbols that come next, as many as `out` has.
    fn next(&mut self, out: &mut [u8]) -> Result<(), Self::Stop>
        requires sound { sound self.old }
        requires left { length out.old ≤ left self.old }
        ensures sound { sound self.new }
        ensures given { (before : List ℕ) → has_given self.old before
            → OnOk result (has_given self.new (before ++ out.new)) }
        ensures left { OnOk result (left self.new + length out.old ≡ left self.old) }
        ensures kept { kept self.new ≡ kept self.old }
        ensures stop { IfErr result (λ f. stops (kept self.old) f) };
}

/// The symbols of a list, as a source.
#[derive(Drop)]
pub(super) struct ListSymbols<'a> {
    symbols: &'a [u8],
    // How many it has given.
    at: usize,
}

impl<'a> SymbolSource for ListSymbols<'a> {
    ghost use Rattle.std.specs.Prelude.{ℕ, List};
    ghost use Rattle.delta_mode.specs.inside.Listed.{IsWithin, list_of, are_first, left_in, never};

    type Stop = ();

    ghost sound = { IsWithin };

    ghost has_given = { are_first };

    ghost left = { left_in };

    ghost Kept = { List ℕ };

    ghost kept = { list_of };

    ghost stops = { never };

    fn next(&mut self, out: &mut [u8]) -> Result<(), ()> {
        let end = self.at + out.len();
        out.copy_from_slice(&self.symbols[self.at..end]);
        self.at = end;
        Ok(())
    }
}

impl<'a> ListSymbols<'a> {
    /// All symbols of a list.
    pub(super) fn of(symbols: &'a [u8]) -> ListSymbols<'a>
        ensures sound { IsWithin result }
        ensures list { list_of result ≡ symbols.now }
        ensures left { left_in result ≡ length symbols.now }
        ensures none { are_first result [] }
    {
        ListSymbols { symbols, at: 0 }
    }
}
