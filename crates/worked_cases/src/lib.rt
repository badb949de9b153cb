//! Worked cases: those that the checker computes from the definitions, in one table; those of whole rows, which follow from the
//! laws of the code; that of a frame of one datagram, with a section of either kind that comes from it; and two runs of
//! calls that meet the premises of what is promised of runs, with what that promise leaves no room for.
#![tactic(auto)]

ghost use Rattle.std.specs.Prelude.{◌≡◌, T, length};
ghost use Rattle.ledger.specs.Witness.{Met, OnlyRepair};
ghost use Rattle.worked_cases.specs.Cases.{cases, all_hold};
ghost use Rattle.worked_cases.specs.FrameCases.{OwnCase};
ghost use Rattle.worked_cases.specs.RowCases.{RowCases};

/// How many worked cases there are in the table. All of them hold of the definitions, and so do those of whole rows, of a
/// frame and of runs of calls.
pub fn worked_cases() -> usize
    ensures count { result ≡ length cases }
    ensures hold { T (all_hold cases) }
    ensures rows { RowCases }
    ensures own { OwnCase }
    ensures run { Met }
    ensures shut_out { OnlyRepair }
{
    42
}
