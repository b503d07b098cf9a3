//! The longest worked row: 64 processes, two of them in the line, and then each crashes. Another replay starts from the
//! image that it saves.

/// `REPORT`: of all that crash. At the end process 0 is inside, 1 has number 2, and no other is in the line. `AGAIN_REPORT`: of two that
/// come back. Process 1 has then reread its words and still has its number: no word changes. The data words of the image, 15 and
/// one more for each process but the first, are 0.
pub const CRASH_OF_EVERYTHING: &str = r#"
@text SCHEDULE
rme 1 procs 64 limit 100 cap 1
lock 0
step 0 197
lock 1
step 1 69
crash 0
crash 1
crash 2
crash 3
crash 4
crash 5
crash 6
crash 7
crash 8
crash 9
crash 10
crash 11
crash 12
crash 13
crash 14
crash 15
crash 16
crash 17
crash 18
crash 19
crash 20
crash 21
crash 22
crash 23
crash 24
crash 25
crash 26
crash 27
crash 28
crash 29
crash 30
crash 31
crash 32
crash 33
crash 34
crash 35
crash 36
crash 37
crash 38
crash 39
crash 40
crash 41
crash 42
crash 43
crash 44
crash 45
crash 46
crash 47
crash 48
crash 49
crash 50
crash 51
crash 52
crash 53
crash 54
crash 55
crash 56
crash 57
crash 58
crash 59
crash 60
crash 61
crash 62
crash 63
@text REPORT
begin 0
ready 0
enter 0
answer 0 clean
begin 1
ready 1
crash 0
crash 1
crash 2
crash 3
crash 4
crash 5
crash 6
crash 7
crash 8
crash 9
crash 10
crash 11
crash 12
crash 13
crash 14
crash 15
crash 16
crash 17
crash 18
crash 19
crash 20
crash 21
crash 22
crash 23
crash 24
crash 25
crash 26
crash 27
crash 28
crash 29
crash 30
crash 31
crash 32
crash 33
crash 34
crash 35
crash 36
crash 37
crash 38
crash 39
crash 40
crash 41
crash 42
crash 43
crash 44
crash 45
crash 46
crash 47
crash 48
crash 49
crash 50
crash 51
crash 52
crash 53
crash 54
crash 55
crash 56
crash 57
crash 58
crash 59
crash 60
crash 61
crash 62
crash 63
words 0 0 1 1
words 1 0 2 0
words 2 0 0 0
words 3 0 0 0
words 4 0 0 0
words 5 0 0 0
words 6 0 0 0
words 7 0 0 0
words 8 0 0 0
words 9 0 0 0
words 10 0 0 0
words 11 0 0 0
words 12 0 0 0
words 13 0 0 0
words 14 0 0 0
words 15 0 0 0
words 16 0 0 0
words 17 0 0 0
words 18 0 0 0
words 19 0 0 0
words 20 0 0 0
words 21 0 0 0
words 22 0 0 0
words 23 0 0 0
words 24 0 0 0
words 25 0 0 0
words 26 0 0 0
words 27 0 0 0
words 28 0 0 0
words 29 0 0 0
words 30 0 0 0
words 31 0 0 0
words 32 0 0 0
words 33 0 0 0
words 34 0 0 0
words 35 0 0 0
words 36 0 0 0
words 37 0 0 0
words 38 0 0 0
words 39 0 0 0
words 40 0 0 0
words 41 0 0 0
words 42 0 0 0
words 43 0 0 0
words 44 0 0 0
words 45 0 0 0
words 46 0 0 0
words 47 0 0 0
words 48 0 0 0
words 49 0 0 0
words 50 0 0 0
words 51 0 0 0
words 52 0 0 0
words 53 0 0 0
words 54 0 0 0
words 55 0 0 0
words 56 0 0 0
words 57 0 0 0
words 58 0 0 0
words 59 0 0 0
words 60 0 0 0
words 61 0 0 0
words 62 0 0 0
words 63 0 0 0
mail 0 closed 0 ruined 0
verdict fine
@text AGAIN_REPORT
reenter 0
answer 0 owner-died
words 0 0 1 1
words 1 0 2 0
words 2 0 0 0
words 3 0 0 0
words 4 0 0 0
words 5 0 0 0
words 6 0 0 0
words 7 0 0 0
words 8 0 0 0
words 9 0 0 0
words 10 0 0 0
words 11 0 0 0
words 12 0 0 0
words 13 0 0 0
words 14 0 0 0
words 15 0 0 0
words 16 0 0 0
words 17 0 0 0
words 18 0 0 0
words 19 0 0 0
words 20 0 0 0
words 21 0 0 0
words 22 0 0 0
words 23 0 0 0
words 24 0 0 0
words 25 0 0 0
words 26 0 0 0
words 27 0 0 0
words 28 0 0 0
words 29 0 0 0
words 30 0 0 0
words 31 0 0 0
words 32 0 0 0
words 33 0 0 0
words 34 0 0 0
words 35 0 0 0
words 36 0 0 0
words 37 0 0 0
words 38 0 0 0
words 39 0 0 0
words 40 0 0 0
words 41 0 0 0
words 42 0 0 0
words 43 0 0 0
words 44 0 0 0
words 45 0 0 0
words 46 0 0 0
words 47 0 0 0
words 48 0 0 0
words 49 0 0 0
words 50 0 0 0
words 51 0 0 0
words 52 0 0 0
words 53 0 0 0
words 54 0 0 0
words 55 0 0 0
words 56 0 0 0
words 57 0 0 0
words 58 0 0 0
words 59 0 0 0
words 60 0 0 0
words 61 0 0 0
words 62 0 0 0
words 63 0 0 0
mail 0 closed 0 ruined 0
verdict fine
@text IMAGE
{"cap":1,"data":[0,0,0,0,0,0,0,0,0,0,0,0,0,0,0,0,0,0,0,0,0,0,0,0,0,0,0,0,0,0,0,0,0,0,0,0,0,0,0,0,0,0,0,0,0,0,0,0,0,0,0,0,0,0,0,0,0,0,0,0,0,0,0,0,0,0,0,0,0,0,0,0,0,0,0,0,0,0],"limit":100,"lock":[[0,1,1],[0,2,0],[0,0,0],[0,0,0],[0,0,0],[0,0,0],[0,0,0],[0,0,0],[0,0,0],[0,0,0],[0,0,0],[0,0,0],[0,0,0],[0,0,0],[0,0,0],[0,0,0],[0,0,0],[0,0,0],[0,0,0],[0,0,0],[0,0,0],[0,0,0],[0,0,0],[0,0,0],[0,0,0],[0,0,0],[0,0,0],[0,0,0],[0,0,0],[0,0,0],[0,0,0],[0,0,0],[0,0,0],[0,0,0],[0,0,0],[0,0,0],[0,0,0],[0,0,0],[0,0,0],[0,0,0],[0,0,0],[0,0,0],[0,0,0],[0,0,0],[0,0,0],[0,0,0],[0,0,0],[0,0,0],[0,0,0],[0,0,0],[0,0,0],[0,0,0],[0,0,0],[0,0,0],[0,0,0],[0,0,0],[0,0,0],[0,0,0],[0,0,0],[0,0,0],[0,0,0],[0,0,0],[0,0,0],[0,0,0]],"version":2,"width":1}
@row rmelab replay --save a.json @in SCHEDULE @out REPORT @saves a.json IMAGE
@row rmelab replay --image a.json --save b.json @file a.json IMAGE @out AGAIN_REPORT @saves b.json IMAGE @in
rme 1 procs 64 limit 100 cap 1
lock 1
step 1 5
lock 0
step 0 4
"#;
