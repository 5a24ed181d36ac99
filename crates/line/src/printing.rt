// What is printed of a line: the sign of its state, and the copy that it has as chute/wave.
ghost use Rattle.std.specs.Prelude.{Some};
ghost use Rattle.std.specs.Fmt.{DisplaysOnOk};
ghost use Rattle.line.specs.Texts.{signed_copy, state_text};

use crate::states::State;
use messages::assignments::Assignment;
use std::fmt;

impl fmt::Display for State {
    ghost output = { λ s. Some (state_text s) };

    fn fmt<W: fmt::Write>(&self, f: &mut fmt::Formatter<W>) -> fmt::Result {
        match self {
            State::Invalid => f.write_str("I"),
            State::Exclusive(copy) => write!(f, "E {copy}"),
            State::SharedOwned(copy) => write!(f, "SO {copy}"),
            State::SharedUnowned(copy) => write!(f, "SU {copy}"),
            State::WaitingExclusion(_, copy) => print_signed(f, "WE", *copy),
            State::WaitingExclusionIfAny(_, copy) => print_signed(f, "WEI", *copy),
            State::WaitingPurge(_, copy) => print_signed(f, "WP", *copy),
            State::WaitingSharedData => f.write_str("WSD"),
            State::WaitingExclusiveData(_) => f.write_str("WED"),
            State::WaitingExclusiveDataIfAny(_) => f.write_str("WEID"),
            State::WaitingPurgeData(_) => f.write_str("WPD"),
        }
    }
}

// A sign, and the copy if there is one.
fn print_signed<W: fmt::Write>(
    f: &mut fmt::Formatter<W>,
    sign: &str,
    copy: Option<Assignment>,
) -> fmt::Result
    ensures { DisplaysOnOk W.write_str_gives f.old result (Some (signed_copy sign.now copy)) f.new }
{
    f.write_str(sign)?;
    match copy {
        Some(assignment) => write!(f, " {assignment}"),
        None => Ok(()),
    }
}
