//! Replays that save an image, and replays that start from one.

/// The stem of a search's lasso leaves the image that it leaves with the cycle twice after it: process 0 starves.
/// The header has to name the image's sizes. A greater width widens the image. A broken image is refused with its rule.
/// A line that is refused leaves no part of an object.
pub const IMAGES: &str = r#"
@text SMALLEST
rme 1 procs 1 limit 10 cap 1
lock 0
step 0 8
@text TORN_IMAGE
{"cap":2,"data":[0,0,0,1,0,1,77,0,0,0,0,0,0,0,0,0,0,0],"limit":10,"lock":[[0,1,1]],"version":2,"width":1}
@text WIDE_TORN_IMAGE
{"cap":1,"data":[0,0,0,1,0,1,7,8,9,0,0,0,0,0,0,0,0,0,0],"limit":10,"lock":[[0,1,1]],"version":2,"width":3}
@text STEM
rme 1 procs 2 limit 1 cap 1
lock 0
step 0 7
@text STEM_AND_CYCLES
rme 1 procs 2 limit 1 cap 1
lock 0
step 0 7
lock 1
step 1 4
step 0
step 1 2
lock 1
step 1 4
step 0
step 1 2
@text STEM_IMAGE
{"cap":1,"data":[0,0,0,0,0,0,0,0,0,0,0,0,0,0,0,0],"limit":1,"lock":[[0,1,0],[0,0,0]],"version":2,"width":1}
@text REFUSED_9
rmelab: line 1: refused 9
@text RULE_1
rmelab: image: rule 1
@row rmelab replay --save a.json @in STEM @saves a.json STEM_IMAGE @out
begin 0
ready 0
words 0 0 1 0
words 1 0 0 0
mail 0 closed 0 ruined 0
verdict fine
@row rmelab replay --save a.json @in STEM_AND_CYCLES @saves a.json STEM_IMAGE @out
begin 0
ready 0
begin 1
quit 1
answer 1 numbers-spent
begin 1
quit 1
answer 1 numbers-spent
words 0 0 1 0
words 1 0 0 0
mail 0 closed 0 ruined 0
verdict fine
@row rmelab replay --save a.json @in SMALLEST @out
begin 0
ready 0
enter 0
answer 0 clean
words 0 0 1 1
mail 0 closed 0 ruined 0
verdict fine
@saves a.json
{"cap":1,"data":[0,0,0,0,0,0,0,0,0,0,0,0,0,0,0],"limit":10,"lock":[[0,1,1]],"version":2,"width":1}
@row rmelab replay --save a.json @saves a.json TORN_IMAGE @in
rme 1 procs 1 limit 10 cap 2
lock 0
step 0 8
append 0 1 77
step 0 7
crash 0
@out
begin 0
ready 0
enter 0
answer 0 clean
commit 0 1 77
crash 0
words 0 0 1 1
mail 0 closed 0 ruined 0
verdict fine
@row rmelab replay --save a.json @saves a.json WIDE_TORN_IMAGE @in
rme 2 procs 1 limit 10 cap 1 width 3
lock 0
step 0 8
append 0 1 7 8 9
step 0 9
crash 0
@out
begin 0
ready 0
enter 0
answer 0 clean
commit 0 1 7 8 9
crash 0
words 0 0 1 1
mail 0 closed 0 ruined 0
verdict fine
@row rmelab replay --image a.json @name torn-image @file a.json TORN_IMAGE @in
rme 1 procs 1 limit 10 cap 2
lock 0
step 0 4
consistent 0
step 0 11
@out
reenter 0
answer 0 owner-died
show 0 0 1 77
answer 0 mended
words 0 0 1 1
mail 1 closed 0 ruined 0
message 0 0 1 77
verdict fine
@row rmelab replay --image a.json @name wide-torn @file a.json WIDE_TORN_IMAGE @in
rme 2 procs 1 limit 10 cap 1 width 3
lock 0
step 0 4
consistent 0
step 0 15
@out
reenter 0
answer 0 owner-died
show 0 0 1 7 8 9
answer 0 mended
words 0 0 1 1
mail 1 closed 0 ruined 0
message 0 0 1 7 8 9
verdict fine
@row rmelab replay --image a.json @file a.json TORN_IMAGE @ends 2 @err REFUSED_9 @in
rme 1 procs 2 limit 10 cap 2
@row rmelab replay --image a.json @file a.json TORN_IMAGE @ends 2 @err REFUSED_9 @in
rme 1 procs 1 limit 11 cap 2
@row rmelab replay --image a.json @file a.json TORN_IMAGE @ends 2 @err REFUSED_9 @in
rme 1 procs 1 limit 10 cap 1
@row rmelab replay --image a.json @file a.json TORN_IMAGE @ends 2 @err REFUSED_9 @in
rme 1 procs 65 limit 0 cap 0
@row rmelab replay --image a.json @file a.json TORN_IMAGE @in
rme 2 procs 1 limit 10 cap 2 width 2
lock 0
step 0 4
consistent 0
step 0 13
@out
reenter 0
answer 0 owner-died
show 0 0 1 77 0
answer 0 mended
words 0 0 1 1
mail 1 closed 0 ruined 0
message 0 0 1 77 0
verdict fine
@row rmelab replay --image a.json @ends 2 @err RULE_1 @file a.json
[]@in SMALLEST
@row rmelab replay --image a.json @err RULE_1 @file a.json
[]@ends 2
@row rmelab replay --json @ends 2 @in
rme 1 procs 1 limit 10 cap 1
lock 0
step 0 8
consistent 0
@err
rmelab: line 4: refused 10
"#;
