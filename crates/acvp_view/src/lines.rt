//! Where lines go.
ghost use Rattle.std.specs.Prelude.{option_map, string_bytes};
ghost use Rattle.acvp_view.specs.Lines.{HandsOn, lines_of};

use crate::fault::ViewFault;

/// Where lines go.
pub trait Lines {
    ghost use Rattle.std.specs.Prelude.{ℕ, List};

    /// That it was handed a line, and in which state it then is.
    ghost takes: { Self → List ℕ → Self → Type 0 };

    /// Takes a line. After a fault the line may be there in part, or not at all.
    fn take(&mut self, line: &str) -> Result<(), ViewFault>
        ensures { takes self.old line.now self.new };
}

/// Where lines go that begin with a mark.
pub trait MarkedLines: Lines {
    ghost use Rattle.std.specs.Prelude.{◌++◌};

    /// Takes a line that is a mark and a text behind it. After a fault it is as after one of `take`.
    fn take_marked(&mut self, mark: &str, text: &str) -> Result<(), ViewFault>
        ensures { Self.takes self.old (mark.now ++ text.now) self.new };
}

/// The standard output.
#[derive(Drop)]
pub struct Printed<'a, R>(pub &'a R);

impl<'a, R: Print> Lines for Printed<'a, R> {
    ghost use Rattle.std.specs.Prelude.{⊤};

    // No contract can say what is printed.
    ghost takes = { λ _ _ _. ⊤ };

    fn take(&mut self, line: &str) -> Result<(), ViewFault> {
        let Printed(rt) = self;
        match println!(rt; "{line}") {
            Ok(()) => Ok(()),
            Err(_) => Err(ViewFault::Write),
        }
    }
}

impl<'a, R: Print> MarkedLines for Printed<'a, R> {
    fn take_marked(&mut self, mark: &str, text: &str) -> Result<(), ViewFault> {
        let Printed(rt) = self;
        match println!(rt; "{mark}{text}") {
            Ok(()) => Ok(()),
            Err(_) => Err(ViewFault::Write),
        }
    }
}

/// Hands on a line, where there is one.
pub(crate) fn hand_on<L: Lines>(lines: &mut L, line: Option<String>) -> Result<(), ViewFault>
    ensures { HandsOn L.takes result (lines_of (option_map string_bytes line)) lines.old lines.new }
{
    match line {
        Some(line) => lines.take(line.as_str()),
        None => Ok(()),
    }
}
