//! Replays that print each step: under a variant, from an image, as JSON, and up to a line that is refused.

pub const TEXTS: &str = r#"
@text SMALLEST
rme 1 procs 1 limit 10 cap 1
lock 0
step 0 8
@text TOLD
at 0 rest r choosing 0 remote write-through write-back
at 0 rest r number 0 remote write-through write-back
at 0 rest r inside 0 remote write-through write-back
at 0 doorway w choosing=1 remote write-through write-back
begin 0
at 0 waiting w number=1 remote write-through write-back
ready 0
at 0 waiting w choosing=0 remote write-through
at 0 section w inside=1 remote write-through write-back
enter 0
at 0 section r ruined 0 remote dsm write-through write-back
answer 0 clean
words 0 0 1 1
mail 0 closed 0 ruined 0
verdict fine
@text LINES
{"format":"rmelab steps","version":1}
{"cap":1,"data":[0,0,0,0,0,0,0,0,0,0,0,0,0,0,0],"limit":10,"lock":[[0,0,0]],"version":2,"width":1}
{"step":1,"process":0,"phase":"rest","kind":"reread","access":"load","word":"choosing[0]","value":0,"remote":{"dsm":false,"write-through":true,"write-back":true},"deed":null,"answer":null,"lock":[[0,0,0]]}
{"step":2,"process":0,"phase":"rest","kind":"reread","access":"load","word":"number[0]","value":0,"remote":{"dsm":false,"write-through":true,"write-back":true},"deed":null,"answer":null,"lock":[[0,0,0]]}
{"step":3,"process":0,"phase":"rest","kind":"reread","access":"load","word":"inside[0]","value":0,"remote":{"dsm":false,"write-through":true,"write-back":true},"deed":null,"answer":null,"lock":[[0,0,0]]}
{"step":4,"process":0,"phase":"doorway","kind":"open","access":"store","word":"choosing[0]","value":1,"remote":{"dsm":false,"write-through":true,"write-back":true},"deed":"begin 0","answer":null,"lock":[[1,0,0]]}
{"step":5,"process":0,"phase":"waiting","kind":"take","access":"store","word":"number[0]","value":1,"remote":{"dsm":false,"write-through":true,"write-back":true},"deed":"ready 0","answer":null,"lock":[[1,1,0]]}
{"step":6,"process":0,"phase":"waiting","kind":"shut","access":"store","word":"choosing[0]","value":0,"remote":{"dsm":false,"write-through":true,"write-back":false},"deed":null,"answer":null,"lock":[[0,1,0]]}
{"step":7,"process":0,"phase":"section","kind":"mark","access":"store","word":"inside[0]","value":1,"remote":{"dsm":false,"write-through":true,"write-back":true},"deed":"enter 0","answer":null,"lock":[[0,1,1]]}
{"step":8,"process":0,"phase":"section","kind":"get","access":"load","word":"ruined","value":0,"remote":{"dsm":true,"write-through":true,"write-back":true},"deed":null,"answer":"answer 0 clean","lock":[[0,1,1]]}
{"cap":1,"data":[0,0,0,0,0,0,0,0,0,0,0,0,0,0,0],"limit":10,"lock":[[0,1,1]],"version":2,"width":1}
{"verdict":"fine"}
@text SAVED
{"cap":1,"data":[0,0,0,0,0,0,0,0,0,0,0,0,0,0,0],"limit":10,"lock":[[0,1,1]],"version":2,"width":1}
@text AGAIN
rme 1 procs 1 limit 10 cap 1
lock 0
step 0 4
@text MENDED_FIRST
rme 1 procs 1 limit 10 cap 1
lock 0
step 0 8
consistent 0
@text LINE_4_REFUSED
rmelab: line 4: refused 10
@text LINE_1_FAULT
rmelab: line 1: fault 1
@text UNWRITTEN
rmelab: write failed
"#;

/// A process waits for one that has died, which then comes back. Under `no-look` the second process waits for nothing, and
/// enters while the first is inside.
pub const REPLAYS_STEP_BY_STEP: &str = r#"
@row rmelab replay --each @in SMALLEST @out TOLD
@row rmelab replay --each --json @in SMALLEST @out LINES
@row rmelab replay --each --save a.json @in SMALLEST @out TOLD @saves a.json SAVED
@row rmelab replay --each @in
rme 1 procs 2 limit 10 cap 1
lock 0
step 0 11
lock 1
step 1 7
crash 0
step 1 3
lock 0
step 0 4
@out
at 0 rest r choosing 0 remote write-through write-back
at 0 rest r number 0 remote write-through write-back
at 0 rest r inside 0 remote write-through write-back
at 0 doorway w choosing=1 remote write-through write-back
begin 0
at 0 doorway r number[1] 0 remote dsm write-through write-back
at 0 waiting w number=1 remote write-through write-back
ready 0
at 0 waiting w choosing=0 remote write-through
at 0 waiting r choosing[1] 0 remote dsm write-through write-back
at 0 waiting r number[1] 0 remote dsm
at 0 section w inside=1 remote write-through write-back
enter 0
at 0 section r ruined 0 remote dsm write-through write-back
answer 0 clean
at 1 rest r choosing 0 remote write-through write-back
at 1 rest r number 0 remote write-through write-back
at 1 rest r inside 0 remote write-through write-back
at 1 doorway w choosing=1 remote write-through write-back
begin 1
at 1 doorway r number[0] 1 remote dsm write-through write-back
at 1 waiting w number=2 remote write-through write-back
ready 1
at 1 waiting w choosing=0 remote write-through
at 0 dead
crash 0
at 1 waiting r choosing[0] 0 remote dsm write-through write-back
at 1 waiting r number[0] 1 remote dsm
at 1 waiting r number[0] 1 remote dsm
at 0 dead r choosing 0 remote write-through write-back
at 0 dead r number 1 remote write-through write-back
at 0 section r inside 1 remote write-through write-back
reenter 0
at 0 section r ruined 0 remote dsm write-through write-back
answer 0 owner-died
words 0 0 1 1
words 1 0 2 0
mail 0 closed 0 ruined 0
verdict fine
@row rmelab replay --each --variant no-look @ends 1 @in
rme 1 procs 2 limit 10 cap 1
lock 0
lock 1
step 0 5
step 1 6
step 1 4
step 0 6
@out
at 0 rest r choosing 0 remote write-through write-back
at 0 rest r number 0 remote write-through write-back
at 0 rest r inside 0 remote write-through write-back
at 0 doorway w choosing=1 remote write-through write-back
begin 0
at 0 doorway r number[1] 0 remote dsm write-through write-back
at 1 rest r choosing 0 remote write-through write-back
at 1 rest r number 0 remote write-through write-back
at 1 rest r inside 0 remote write-through write-back
at 1 doorway w choosing=1 remote write-through write-back
begin 1
at 1 doorway r number[0] 0 remote dsm write-through write-back
at 1 waiting w number=1 remote write-through write-back
ready 1
at 1 waiting w choosing=0 remote write-through
at 1 waiting r number[0] 0 remote dsm
at 1 section w inside=1 remote write-through write-back
enter 1
at 1 section r ruined 0 remote dsm write-through write-back
answer 1 clean
at 0 waiting w number=1 remote write-through write-back
ready 0
at 0 waiting w choosing=0 remote write-through
at 0 waiting r number[1] 1 remote dsm write-through write-back
at 0 section w inside=1 remote write-through write-back
enter 0
at 0 section r ruined 0 remote dsm write-through write-back
answer 0 clean
words 0 0 1 1
words 1 0 1 1
mail 0 closed 0 ruined 0
verdict against 2 at 6
@row rmelab replay --each --image a.json @in AGAIN @file a.json SAVED @out
at 0 dead r choosing 0 remote write-through write-back
at 0 dead r number 1 remote write-through write-back
at 0 section r inside 1 remote write-through write-back
reenter 0
at 0 section r ruined 0 remote dsm write-through write-back
answer 0 owner-died
words 0 0 1 1
mail 0 closed 0 ruined 0
verdict fine
@row rmelab replay --each @in MENDED_FIRST @ends 2 @err LINE_4_REFUSED @out
at 0 rest r choosing 0 remote write-through write-back
at 0 rest r number 0 remote write-through write-back
at 0 rest r inside 0 remote write-through write-back
at 0 doorway w choosing=1 remote write-through write-back
begin 0
at 0 waiting w number=1 remote write-through write-back
ready 0
at 0 waiting w choosing=0 remote write-through
at 0 section w inside=1 remote write-through write-back
enter 0
at 0 section r ruined 0 remote dsm write-through write-back
answer 0 clean
@row rmelab replay --each @ends 2 @err LINE_1_FAULT
@row rmelab replay --json --each @in
rme 1 procs 1 limit 10 cap 1
lock 0
step 0 8
crash 0
@out
{"format":"rmelab steps","version":1}
{"cap":1,"data":[0,0,0,0,0,0,0,0,0,0,0,0,0,0,0],"limit":10,"lock":[[0,0,0]],"version":2,"width":1}
{"step":1,"process":0,"phase":"rest","kind":"reread","access":"load","word":"choosing[0]","value":0,"remote":{"dsm":false,"write-through":true,"write-back":true},"deed":null,"answer":null,"lock":[[0,0,0]]}
{"step":2,"process":0,"phase":"rest","kind":"reread","access":"load","word":"number[0]","value":0,"remote":{"dsm":false,"write-through":true,"write-back":true},"deed":null,"answer":null,"lock":[[0,0,0]]}
{"step":3,"process":0,"phase":"rest","kind":"reread","access":"load","word":"inside[0]","value":0,"remote":{"dsm":false,"write-through":true,"write-back":true},"deed":null,"answer":null,"lock":[[0,0,0]]}
{"step":4,"process":0,"phase":"doorway","kind":"open","access":"store","word":"choosing[0]","value":1,"remote":{"dsm":false,"write-through":true,"write-back":true},"deed":"begin 0","answer":null,"lock":[[1,0,0]]}
{"step":5,"process":0,"phase":"waiting","kind":"take","access":"store","word":"number[0]","value":1,"remote":{"dsm":false,"write-through":true,"write-back":true},"deed":"ready 0","answer":null,"lock":[[1,1,0]]}
{"step":6,"process":0,"phase":"waiting","kind":"shut","access":"store","word":"choosing[0]","value":0,"remote":{"dsm":false,"write-through":true,"write-back":false},"deed":null,"answer":null,"lock":[[0,1,0]]}
{"step":7,"process":0,"phase":"section","kind":"mark","access":"store","word":"inside[0]","value":1,"remote":{"dsm":false,"write-through":true,"write-back":true},"deed":"enter 0","answer":null,"lock":[[0,1,1]]}
{"step":8,"process":0,"phase":"section","kind":"get","access":"load","word":"ruined","value":0,"remote":{"dsm":true,"write-through":true,"write-back":true},"deed":null,"answer":"answer 0 clean","lock":[[0,1,1]]}
{"step":9,"process":0,"phase":"dead","kind":"crash","access":null,"word":null,"value":null,"remote":null,"deed":"crash 0","answer":null,"lock":[[0,1,1]]}
{"cap":1,"data":[0,0,0,0,0,0,0,0,0,0,0,0,0,0,0],"limit":10,"lock":[[0,1,1]],"version":2,"width":1}
{"verdict":"fine"}
@row rmelab replay --each --json --image a.json @in AGAIN @file a.json SAVED @out
{"format":"rmelab steps","version":1}
{"cap":1,"data":[0,0,0,0,0,0,0,0,0,0,0,0,0,0,0],"limit":10,"lock":[[0,1,1]],"version":2,"width":1}
{"step":1,"process":0,"phase":"dead","kind":"reread","access":"load","word":"choosing[0]","value":0,"remote":{"dsm":false,"write-through":true,"write-back":true},"deed":null,"answer":null,"lock":[[0,1,1]]}
{"step":2,"process":0,"phase":"dead","kind":"reread","access":"load","word":"number[0]","value":1,"remote":{"dsm":false,"write-through":true,"write-back":true},"deed":null,"answer":null,"lock":[[0,1,1]]}
{"step":3,"process":0,"phase":"section","kind":"reread","access":"load","word":"inside[0]","value":1,"remote":{"dsm":false,"write-through":true,"write-back":true},"deed":"reenter 0","answer":null,"lock":[[0,1,1]]}
{"step":4,"process":0,"phase":"section","kind":"get","access":"load","word":"ruined","value":0,"remote":{"dsm":true,"write-through":true,"write-back":true},"deed":null,"answer":"answer 0 owner-died","lock":[[0,1,1]]}
{"cap":1,"data":[0,0,0,0,0,0,0,0,0,0,0,0,0,0,0],"limit":10,"lock":[[0,1,1]],"version":2,"width":1}
{"verdict":"fine"}
@row rmelab replay --each --json --save a.json @in SMALLEST @out LINES @saves a.json SAVED
@row rmelab replay --each --json @in MENDED_FIRST @ends 2 @err LINE_4_REFUSED @out
{"format":"rmelab steps","version":1}
{"cap":1,"data":[0,0,0,0,0,0,0,0,0,0,0,0,0,0,0],"limit":10,"lock":[[0,0,0]],"version":2,"width":1}
{"step":1,"process":0,"phase":"rest","kind":"reread","access":"load","word":"choosing[0]","value":0,"remote":{"dsm":false,"write-through":true,"write-back":true},"deed":null,"answer":null,"lock":[[0,0,0]]}
{"step":2,"process":0,"phase":"rest","kind":"reread","access":"load","word":"number[0]","value":0,"remote":{"dsm":false,"write-through":true,"write-back":true},"deed":null,"answer":null,"lock":[[0,0,0]]}
{"step":3,"process":0,"phase":"rest","kind":"reread","access":"load","word":"inside[0]","value":0,"remote":{"dsm":false,"write-through":true,"write-back":true},"deed":null,"answer":null,"lock":[[0,0,0]]}
{"step":4,"process":0,"phase":"doorway","kind":"open","access":"store","word":"choosing[0]","value":1,"remote":{"dsm":false,"write-through":true,"write-back":true},"deed":"begin 0","answer":null,"lock":[[1,0,0]]}
{"step":5,"process":0,"phase":"waiting","kind":"take","access":"store","word":"number[0]","value":1,"remote":{"dsm":false,"write-through":true,"write-back":true},"deed":"ready 0","answer":null,"lock":[[1,1,0]]}
{"step":6,"process":0,"phase":"waiting","kind":"shut","access":"store","word":"choosing[0]","value":0,"remote":{"dsm":false,"write-through":true,"write-back":false},"deed":null,"answer":null,"lock":[[0,1,0]]}
{"step":7,"process":0,"phase":"section","kind":"mark","access":"store","word":"inside[0]","value":1,"remote":{"dsm":false,"write-through":true,"write-back":true},"deed":"enter 0","answer":null,"lock":[[0,1,1]]}
{"step":8,"process":0,"phase":"section","kind":"get","access":"load","word":"ruined","value":0,"remote":{"dsm":true,"write-through":true,"write-back":true},"deed":null,"answer":"answer 0 clean","lock":[[0,1,1]]}
@row rmelab replay --each --json @ends 2 @err LINE_1_FAULT
@row rmelab replay --each --json @in SMALLEST @fails write @ends 3 @err UNWRITTEN
@row rmelab replay --each --json @in SMALLEST @fails flush @out LINES @ends 3 @err UNWRITTEN
@row rmelab replay --each @in SMALLEST @fails read @ends 3 @err
rmelab: read failed
@row rmelab replay --each @in SMALLEST @fails write @ends 3 @err UNWRITTEN
@row rmelab replay --each @in SMALLEST @fails flush @out TOLD @ends 3 @err UNWRITTEN
"#;
