//! An append that stops at each of its calls, and a repair that stops at each of its own.

/// redo-table and repair-stopped-twice, with values of one word and of three. The append's call 7, or 9, arms the record; 13,
/// or 17, calls store it, and a repair that mends has 10, or 14.
pub const TABLES: &str = "\
memory: appends and repairs cut off
for 1 7: sizes 1 1 1 15: append 0 1 77: stops; repair 0: calls 1 nothing-to-mend; append 0 1 77: calls 13 stored | message 0 1 77 | 0 0 1 0 0 1 77 0 0 0 0 1 0 1 77
for 8 13: sizes 1 1 1 15: append 0 1 77: stops; repair 0: calls 10 mended; append 0 1 77: calls 3 already | message 0 1 77 | 0 0 1 0 0 1 77 0 0 0 0 1 0 1 77
sizes 1 1 1 15: append 0 1 77: calls 13 14 stored; repair 0: calls 1 nothing-to-mend; append 0 1 77: calls 3 already | message 0 1 77 | 0 0 1 0 0 1 77 0 0 0 0 1 0 1 77
for 1 10: sizes 1 1 1 15: append 0 1 77: stops 8; repair 0: stops; repair 0: calls 10 mended; append 0 1 77: calls 3 already | message 0 1 77 | 0 0 1 0 0 1 77 0 0 0 0 1 0 1 77
for 1 10: sizes 1 1 1 15: append 0 1 77: stops 9; repair 0: stops; repair 0: calls 10 mended; append 0 1 77: calls 3 already | message 0 1 77 | 0 0 1 0 0 1 77 0 0 0 0 1 0 1 77
for 1 10: sizes 1 1 1 15: append 0 1 77: stops 10; repair 0: stops; repair 0: calls 10 mended; append 0 1 77: calls 3 already | message 0 1 77 | 0 0 1 0 0 1 77 0 0 0 0 1 0 1 77
for 1 10: sizes 1 1 1 15: append 0 1 77: stops 11; repair 0: stops; repair 0: calls 10 mended; append 0 1 77: calls 3 already | message 0 1 77 | 0 0 1 0 0 1 77 0 0 0 0 1 0 1 77
for 1 10: sizes 1 1 1 15: append 0 1 77: stops 12; repair 0: stops; repair 0: calls 10 mended; append 0 1 77: calls 3 already | message 0 1 77 | 0 0 1 0 0 1 77 0 0 0 0 1 0 1 77
for 1 10: sizes 1 1 1 15: append 0 1 77: stops 13; repair 0: stops; repair 0: calls 10 mended; append 0 1 77: calls 3 already | message 0 1 77 | 0 0 1 0 0 1 77 0 0 0 0 1 0 1 77
for 1 9: sizes 1 1 3 19: append 0 1 7 8 9: stops; repair 0: calls 1 nothing-to-mend; append 0 1 7 8 9: calls 17 stored | message 0 1 7 8 9 | 0 0 1 0 0 1 7 8 9 0 0 0 0 1 0 1 7 8 9
for 10 17: sizes 1 1 3 19: append 0 1 7 8 9: stops; repair 0: calls 14 mended; append 0 1 7 8 9: calls 3 already | message 0 1 7 8 9 | 0 0 1 0 0 1 7 8 9 0 0 0 0 1 0 1 7 8 9
sizes 1 1 3 19: append 0 1 7 8 9: calls 17 18 stored; repair 0: calls 1 nothing-to-mend; append 0 1 7 8 9: calls 3 already | message 0 1 7 8 9 | 0 0 1 0 0 1 7 8 9 0 0 0 0 1 0 1 7 8 9
for 1 14: sizes 1 1 3 19: append 0 1 7 8 9: stops 10; repair 0: stops; repair 0: calls 14 mended; append 0 1 7 8 9: calls 3 already | message 0 1 7 8 9 | 0 0 1 0 0 1 7 8 9 0 0 0 0 1 0 1 7 8 9
for 1 14: sizes 1 1 3 19: append 0 1 7 8 9: stops 11; repair 0: stops; repair 0: calls 14 mended; append 0 1 7 8 9: calls 3 already | message 0 1 7 8 9 | 0 0 1 0 0 1 7 8 9 0 0 0 0 1 0 1 7 8 9
for 1 14: sizes 1 1 3 19: append 0 1 7 8 9: stops 12; repair 0: stops; repair 0: calls 14 mended; append 0 1 7 8 9: calls 3 already | message 0 1 7 8 9 | 0 0 1 0 0 1 7 8 9 0 0 0 0 1 0 1 7 8 9
for 1 14: sizes 1 1 3 19: append 0 1 7 8 9: stops 13; repair 0: stops; repair 0: calls 14 mended; append 0 1 7 8 9: calls 3 already | message 0 1 7 8 9 | 0 0 1 0 0 1 7 8 9 0 0 0 0 1 0 1 7 8 9
for 1 14: sizes 1 1 3 19: append 0 1 7 8 9: stops 14; repair 0: stops; repair 0: calls 14 mended; append 0 1 7 8 9: calls 3 already | message 0 1 7 8 9 | 0 0 1 0 0 1 7 8 9 0 0 0 0 1 0 1 7 8 9
for 1 14: sizes 1 1 3 19: append 0 1 7 8 9: stops 15; repair 0: stops; repair 0: calls 14 mended; append 0 1 7 8 9: calls 3 already | message 0 1 7 8 9 | 0 0 1 0 0 1 7 8 9 0 0 0 0 1 0 1 7 8 9
for 1 14: sizes 1 1 3 19: append 0 1 7 8 9: stops 16; repair 0: stops; repair 0: calls 14 mended; append 0 1 7 8 9: calls 3 already | message 0 1 7 8 9 | 0 0 1 0 0 1 7 8 9 0 0 0 0 1 0 1 7 8 9
for 1 14: sizes 1 1 3 19: append 0 1 7 8 9: stops 17; repair 0: stops; repair 0: calls 14 mended; append 0 1 7 8 9: calls 3 already | message 0 1 7 8 9 | 0 0 1 0 0 1 7 8 9 0 0 0 0 1 0 1 7 8 9";
