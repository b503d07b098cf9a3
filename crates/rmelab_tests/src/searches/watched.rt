//! The progress of a search or a hunt, as it is shown.

/// The clock is read when the work begins, and then at each 64th state or round. Each tenth reading after the first one is
/// another second later. So progress is shown before the 640th and the 1280th round, and when the 640th state is tried. The
/// counts of states are those of the plain search in bench/explore.
/// If standard error isn't a terminal, nothing is shown.
pub const SHOWN: &str = "
@text NOTHING_FOUND
nothing found
@text ALL_925
nothing found: all 925 states
@row rmelab hunt --variant right --seed 1 --rounds 1300 --steps 10 @shown
\r639 rounds, 6390 moves, 6390 moves a second\x1b[K\r1279 rounds, 12790 moves, 6395 moves a second\x1b[K\r\x1b[K@out NOTHING_FOUND
@row rmelab explore --variant right --procs 2 --jobs 1 @shown
\r657 states, 48 moves deep, 657 states a second\x1b[K\r\x1b[K@out ALL_925
@row rmelab explore --variant right --procs 2 --jobs 1 @out ALL_925 @shown
@fails shown
@row rmelab hunt --variant right --seed 1 --rounds 1300 --steps 10 @out NOTHING_FOUND @shown
@fails shown
@row rmelab explore --variant no-look --procs 2 --limit 1 @ends 1 @shown
@out SHORTEST
@row rmelab hunt --variant right --seed 1 --rounds 1300 --steps 10 @out NOTHING_FOUND
@row rmelab explore --variant right --procs 2 --jobs 1 @out ALL_925
";
