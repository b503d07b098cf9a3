//! The lines of a search of an algorithm and of mean costs, in a buffer of fixed size.

ghost use Rattle.std.specs.Prelude.{◌≡◌, ◌+◌, ◌<◌, ◌≤◌, ◌*◌, ◌/◌, ◌%◌, ◌++◌, Some, codes, length};
ghost use Rattle.algorithm_commands.specs.AlgorithmExplores.{all_line_but};
ghost use Rattle.algorithm_commands.specs.AlgorithmMeanCosts.{hundredths_text, mean_line as mean_line_by};

use algorithm_explorer::LeftOut;
use algorithm_hunts::CostTotals;
use arrayvec::ArrayString;
use command_parts::line::put;

/// The mean of these costs, rounded down to hundredths: the whole ones, the tenths and the hundredths.
fn mean_of(sum: u64, count: u64) -> (u64, u64, u64)
    requires { 0 < count }
    ensures whole { result.0 ≡ 100 * sum / count / 100 }
    ensures tenths { result.1 ≡ 100 * sum / count / 10 % 10 }
    ensures hundredths { result.2 ≡ 100 * sum / count % 10 }
{
    let mean = 100 * u128::from(sum) / u128::from(count);
    (
        (mean / 100) as u64,
        (mean / 10 % 10) as u64,
        (mean % 10) as u64,
    )
}

/// Appends the mean of these costs to a line.
fn put_mean(line: &mut ArrayString<192>, totals: CostTotals)
    requires few { length line.old.bytes ≤ 55 }
    requires some { 0 < totals.count }
    ensures bytes { line.new.bytes ≡ line.old.bytes ++ codes " mean " ++ hundredths_text (100 * totals.sum / totals.count) }
    ensures few { length line.new.bytes ≤ 123 }
{
    let (whole, tenths, hundredths) = mean_of(totals.sum, totals.count);
    put(line, " mean ", whole);
    put(line, ".", tenths);
    put(line, "", hundredths);
}

/// The line that tells how many passages random schedules complete, what they cost together, and the mean.
pub(crate) fn mean_line(totals: CostTotals) -> ArrayString<192>
    ensures { result.bytes ≡ mean_line_by totals }
{
    let mut line = ArrayString::new();
    put(&mut line, "passages ", totals.count);
    put(&mut line, " cost ", totals.sum);
    if totals.count > 0 {
        put_mean(&mut line, totals);
    }
    line.push_str("\n");
    line
}

/// The line that tells that nothing was found in all states, how many moves were left out, and the first line of the text that one
/// of them came to.
pub(crate) fn left_out_line(states: u64, left: LeftOut) -> ArrayString<192>
    ensures { result.bytes ≡ all_line_but states (Some left) }
{
    let mut line = ArrayString::new();
    put(&mut line, "nothing found: all ", states);
    put(&mut line, " states, ", left.moves);
    put(&mut line, " moves left out from line ", left.line);
    line.push_str("\n");
    line
}
