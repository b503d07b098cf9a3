//! Replays and traces as whole invocations: the words, standard input and files; then what is printed on both outputs, the
//! exit status and the file that is saved.

/// Process 1 enters before 0, which was ready first, in `OVERTAKEN`; 0 enters in `IN_ORDER`.
pub const TEXTS: &str = r#"
@text SMALLEST
rme 1 procs 1 limit 10 cap 1
lock 0
step 0 8
@text REPORT
begin 0
ready 0
enter 0
answer 0 clean
words 0 0 1 1
mail 0 closed 0 ruined 0
verdict fine
@text OTHER
a text that no command reads
@text OBJECT
{"report":["begin 0","ready 0","enter 0","answer 0 clean","words 0 0 1 1","mail 0 closed 0 ruined 0","verdict fine"]}
@text UNLOOKED
rme 1 procs 2 limit 10 cap 1
lock 0
lock 1
step 0 5
step 1 6
step 1 4
step 0 6
@text UNLOOKED_REPORT
begin 0
begin 1
ready 1
enter 1
answer 1 clean
ready 0
enter 0
answer 0 clean
words 0 0 1 1
words 1 0 1 1
mail 0 closed 0 ruined 0
verdict against 2 at 6
@text OVERTAKEN
trace 1 procs 2 cap 1
begin 0
ready 0
begin 1
ready 1
enter 1
@text AGAINST
verdict against 4 at 5 by 1 of 0
@text IN_ORDER
trace 1 procs 2 cap 1
begin 0
ready 0
begin 1
ready 1
enter 0
@text TWO_NUMBERS
trace 1 procs 2 cap 1
begin 0 0
@text IMAGE
{"cap":1,"data":[0,0,0,0,0,0,0,0,0,0,0,0,0,0,0],"limit":10,"lock":[[0,1,1]],"version":2,"width":1}
@text AGAIN
rme 1 procs 1 limit 10 cap 1
lock 0
step 0 4
@text AGAIN_REPORT
reenter 0
answer 0 owner-died
words 0 0 1 1
mail 0 closed 0 ruined 0
verdict fine
@text WIDEST
{"cap":1,"data":[0,0,0,0,0,0,0,0,0,0,0,0,0,0,0,0,0,0,0,0,0,0,0,0,0,0,0,0,0],"limit":10,"lock":[[0,1,1]],"version":2,"width":8}
@text RENUMBERED_IMAGE
{"cap":1,"data":[0,0,0,0,0,0,0,0,0,0,0,0,0,0,0,0],"limit":10,"lock":[[0,3,0],[0,2,1]],"version":2,"width":1}
@text ZERO_FIRST
rme 1 procs 1 limit 10 cap 1
lock 01
@text LINE_2_FAULT
rmelab: line 2: fault 3
@text TOO_MANY
rme 1 procs 65 limit 10 cap 1
@text TOO_MANY_TOLD
rmelab: line 1: refused 1
@text MENDED_FIRST
rme 1 procs 1 limit 10 cap 1
lock 0
step 0 8
consistent 0
@text ENTERED
begin 0
ready 0
enter 0
answer 0 clean
@text LINE_4_REFUSED
rmelab: line 4: refused 10
@text OTHER_SIZES
rmelab: line 1: refused 9
@text BAD_VARIANT
rmelab: bad variant
"#;

/// The image that `--save` asks for is in the ending of the command, and none is after a fault.
pub const REPORTS_AND_IMAGES: &str = r#"
@row rmelab replay @in SMALLEST @out REPORT
@row rmelab replay s.rme @in OTHER @file s.rme SMALLEST @out REPORT
@row rmelab replay --json @in SMALLEST @out OBJECT
@row rmelab replay --json s.rme @in OTHER @file s.rme SMALLEST @out OBJECT
@row rmelab replay --variant no-look @in UNLOOKED @out UNLOOKED_REPORT @ends 1
@row rmelab replay --variant no-look --json @in UNLOOKED @ends 1 @out
{"report":["begin 0","begin 1","ready 1","enter 1","answer 1 clean","ready 0","enter 0","answer 0 clean","words 0 0 1 1","words 1 0 1 1","mail 0 closed 0 ruined 0","verdict against 2 at 6"]}
@row rmelab judge @in OVERTAKEN @out AGAINST @ends 1
@row rmelab judge --json @in OVERTAKEN @ends 1 @out
{"verdict":"against","fault":4,"deed":5,"by":1,"of":0}
@row rmelab judge --json @in IN_ORDER @out
{"verdict":"fine"}
@row rmelab judge --json t.trace @in OTHER @file t.trace TWO_NUMBERS @ends 2 @err
rmelab: line 2: fault 6
@row rmelab judge t.trace @in IN_ORDER @file t.trace OVERTAKEN @out AGAINST @ends 1
@row rmelab judge t.trace @in OVERTAKEN @file t.trace IN_ORDER @out
verdict fine
@row rmelab replay --save a.json @in SMALLEST @out REPORT @saves a.json IMAGE
@row rmelab replay --json --save a.json @in SMALLEST @out OBJECT @saves a.json IMAGE
@row rmelab replay --image a.json --save b.json @in AGAIN @file a.json IMAGE @file b.json WIDEST @out AGAIN_REPORT @saves b.json IMAGE
@row rmelab replay --image a.json s.rme @in OTHER @file a.json IMAGE @file s.rme AGAIN @out AGAIN_REPORT
@row rmelab replay --variant no-look --save a.json @in UNLOOKED @out UNLOOKED_REPORT @ends 1 @saves a.json
{"cap":1,"data":[0,0,0,0,0,0,0,0,0,0,0,0,0,0,0,0],"limit":10,"lock":[[0,1,1],[0,1,1]],"version":2,"width":1}
@row rmelab replay --variant renumber --save a.json @saves a.json RENUMBERED_IMAGE @ends 1 @in
rme 1 procs 2 limit 10 cap 1
lock 0
step 0 6
crash 0
lock 1
step 1 8
lock 0
step 0 8
step 1 4
@out
begin 0
ready 0
crash 0
begin 1
ready 1
enter 1
answer 1 clean
words 0 0 3 0
words 1 0 2 1
mail 0 closed 0 ruined 0
verdict against 4 at 6 by 1 of 0
@row rmelab replay --image a.json @file a.json RENUMBERED_IMAGE @in
rme 1 procs 2 limit 10 cap 1
lock 1
step 1 4
@out
reenter 1
answer 1 owner-died
words 0 0 3 0
words 1 0 2 1
mail 0 closed 0 ruined 0
verdict fine
@row rmelab replay @ends 2 @err
rmelab: line 1: fault 1
@row rmelab replay --save a.json @in ZERO_FIRST @ends 2 @err LINE_2_FAULT
@row rmelab replay --json @in TOO_MANY @ends 2 @err TOO_MANY_TOLD
@row rmelab replay --variant no-ties @in TOO_MANY @ends 2 @err TOO_MANY_TOLD
@row rmelab replay --save a.json @in MENDED_FIRST @out ENTERED @ends 2 @err LINE_4_REFUSED
@row rmelab replay --image a.json @in AGAIN @file a.json WIDEST @ends 2 @err OTHER_SIZES
@row rmelab replay --image a.json @file a.json IMAGE @ends 2 @err OTHER_SIZES @in
rme 1 procs 2 limit 10 cap 1
@row rmelab replay --image a.json @in AGAIN @ends 2 @file a.json
[]@err
rmelab: image: rule 1
@row rmelab judge @in TWO_NUMBERS @ends 2 @err
rmelab: line 2: fault 6
@row rmelab replay --variant wrong @in SMALLEST @ends 2 @err BAD_VARIANT
@row rmelab replay --variant no-look --image a.json @in SMALLEST @file a.json IMAGE @ends 2 @err BAD_VARIANT
@row rmelab replay --save b.json @in SMALLEST @out REPORT @saves b.json IMAGE
@row rmelab replay --json --save b.json @in SMALLEST @out OBJECT @saves b.json IMAGE
@row rmelab replay --save b.json @in MENDED_FIRST @out ENTERED @ends 2 @err LINE_4_REFUSED
@row rmelab replay --save b.json @in ZERO_FIRST @ends 2 @err LINE_2_FAULT
"#;
