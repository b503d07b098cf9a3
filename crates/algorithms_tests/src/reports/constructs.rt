//! The report of the text with each construct. What is computed is in its words, so that an operator, a comparison or a set of
//! processes taken for another changes the report.

pub const CONSTRUCTS: &str = r"report of each construct
== constructs
rme 1 procs 3 limit 7 cap 1
recover 1
step 1 9
lock 1
step 1 99
lock 0
step 0 99
withdraw 0
step 0
lock 2
step 2 99
recover 0
step 0 9
unlock 1
step 1 9
step 2 9
crash 2
recover 2
step 2 9
unlock 2
step 2 9
lock 1
step 1 99
crash 1
lock 1
step 1
unlock 1
step 1 9
lock 2
step 2 99
unlock 2
step 2 9
lock 2
step 2 99
unlock 2
step 2 9
lock 0
step 0 99
--
answer 1 found nobody
begin 1
ready 1
enter 1
answer 1 inside
begin 0
ready 0
quit 0
answer 0 withdrawn
begin 2
ready 2
answer 0 found another
leave 1
answer 1 done
enter 2
answer 2 inside
crash 2
reenter 2
answer 2 found itself
leave 2
answer 2 done
begin 1
ready 1
enter 1
answer 1 inside again
crash 1
reenter 1
answer 1 owner died-inside again
leave 1
answer 1 done
begin 2
ready 2
enter 2
answer 2 inside again
leave 2
answer 2 done
begin 2
ready 2
enter 2
answer 2 inside once-more
leave 2
answer 2 done
begin 0
ready 0
enter 0
answer 0 inside
words cell 91 1 3
words turn 1
words compared 576231
words reckoned 69368473 69668473 69698473
words decided 1507 5010 4140
words passed 2811 509 102
verdict fine
";
