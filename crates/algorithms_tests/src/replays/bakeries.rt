//! Replays of the Bakeries.

pub const BAKERIES: &str = r"run bakeries
== bakery 3 2
step 3 -> refused: no such process
step 0 -> refused: nothing to do
withdraw 0 -> refused: not waiting
lock 1 -> started
step 1 -> 10 choosing[1] 0
lock 0 -> started
step 0 -> 10 choosing[0] 0
step 0 -> 11 number[0] 0
withdraw 0 -> refused: not waiting
step 1 -> 11 number[1] 0
step 0 -> 12 inside[0] 0
withdraw 1 -> refused: not waiting
recover 2 -> started
step 0 -> 21 choosing[0] = 1 begin
step 2 -> 50 choosing[2] 0
step 2 -> 51 number[2] 0
step 0 -> 25 number[1] 0
step 0 -> 25 number[2] 0
step 0 -> 33 number[0] = 1 ready
step 0 -> 35 choosing[0] = 0
step 2 -> 52 inside[2] 0 done found idle
recover 2 -> started
step 2 -> 50 choosing[2] 0
step 0 -> 38 choosing[1] 0
step 2 -> 51 number[2] 0
withdraw 2 -> refused: not waiting
step 0 -> 39 number[1] 0
step 2 -> 52 inside[2] 0 done found idle
step 1 -> 12 inside[1] 0
step 1 -> 21 choosing[1] = 1 begin
step 0 -> 38 choosing[2] 0
lock 2 -> started
step 0 -> 39 number[2] 0
step 2 -> 10 choosing[2] 0
step 1 -> 25 number[0] 1
step 1 -> 25 number[2] 0
step 0 -> 41 inside[0] = 1 enter done clean
step 1 -> 33 number[1] = 2 ready
step 1 -> 35 choosing[1] = 0
step 1 -> 38 choosing[0] 0
lock 2 -> refused: call under way
step 2 -> 11 number[2] 0
step 1 -> 39 number[0] 1 blocked
step 1 -> 39 number[0] 1 blocked
step 2 -> 12 inside[2] 0
unlock 0 -> started
step 1 -> 39 number[0] 1 blocked
lock 2 -> refused: call under way
step 2 -> 21 choosing[2] = 1 begin
step 2 -> 25 number[0] 1
step 2 -> 25 number[1] 2
step 1 -> 39 number[0] 1 blocked
step 2 -> 29 choosing[2] = 0 quit done numbers-spent
step 1 -> 39 number[0] 1 blocked
recover 2 -> started
step 0 -> 45 number[0] = 0 leave
step 1 -> 39 number[0] 0
step 0 -> 46 inside[0] = 0 done unlocked
step 1 -> 38 choosing[2] 0
step 1 -> 39 number[2] 0
step 1 -> 41 inside[1] = 1 enter done clean
unlock 1 -> started
step 1 -> 45 number[1] = 0 leave
step 1 -> 46 inside[1] = 0 done unlocked
lock 1 -> started
recover 0 -> started
step 0 -> 50 choosing[0] 0
crash 0 -> crashed
step 2 -> 50 choosing[2] 0
crash 1 -> crashed
lock 1 -> started
step 2 -> 51 number[2] 0
lock 0 -> started
step 2 -> 52 inside[2] 0 done found idle
lock 2 -> started
step 0 -> 10 choosing[0] 0
step 2 -> 10 choosing[2] 0
step 1 -> 10 choosing[1] 0
step 1 -> 11 number[1] 0
step 2 -> 11 number[2] 0
lock 0 -> refused: call under way
step 0 -> 11 number[0] 0
step 0 -> 12 inside[0] 0
step 0 -> 21 choosing[0] = 1 begin
step 2 -> 12 inside[2] 0
step 0 -> 25 number[1] 0
crash 2 -> crashed
step 0 -> 25 number[2] 0
step 0 -> 33 number[0] = 1 ready
step 1 -> 12 inside[1] 0
step 1 -> 21 choosing[1] = 1 begin
step 1 -> 25 number[0] 1
step 1 -> 25 number[2] 0
step 1 -> 33 number[1] = 2 ready
step 0 -> 35 choosing[0] = 0
lock 2 -> started
step 2 -> 10 choosing[2] 0
step 0 -> 38 choosing[1] 1 blocked
step 2 -> 11 number[2] 0
step 2 -> 12 inside[2] 0
step 0 -> 38 choosing[1] 1 blocked
step 1 -> 35 choosing[1] = 0
step 0 -> 38 choosing[1] 0
step 1 -> 38 choosing[0] 0
step 0 -> 39 number[1] 2
step 0 -> 38 choosing[2] 0
step 2 -> 21 choosing[2] = 1 begin
step 0 -> 39 number[2] 0
step 0 -> 41 inside[0] = 1 enter done clean
step 1 -> 39 number[0] 1 blocked
words 0 0 1 1 2 0 1 0 0
== bakery_ruin 2 3
step 2 -> refused: no such process
step 0 -> refused: nothing to do
withdraw 0 -> refused: not waiting
recover 0 -> started
lock 1 -> started
step 1 -> 12 choosing[1] 0
step 0 -> 63 choosing[0] 0
step 0 -> 64 number[0] 0
step 1 -> 13 number[1] 0
step 1 -> 14 inside[1] 0
step 1 -> 24 choosing[1] = 1 begin
step 0 -> 65 inside[0] 0 done found idle
step 1 -> 28 number[0] 0
step 1 -> 36 number[1] = 1 ready
step 1 -> 38 choosing[1] = 0
lock 0 -> started
step 0 -> 12 choosing[0] 0
step 0 -> 13 number[0] 0
step 0 -> 14 inside[0] 0
step 1 -> 41 choosing[0] 0
step 0 -> 24 choosing[0] = 1 begin
step 1 -> 42 number[0] 0
step 1 -> 44 inside[1] = 1 enter
step 1 -> 47 ruined 0 done clean
unlock 1 -> started
step 1 -> 58 number[1] = 0 leave
step 1 -> 59 inside[1] = 0 done unlocked
step 0 -> 28 number[1] 0
lock 1 -> started
step 1 -> 12 choosing[1] 0
step 1 -> 13 number[1] 0
step 1 -> 14 inside[1] 0
step 1 -> 24 choosing[1] = 1 begin
step 0 -> 36 number[0] = 1 ready
step 0 -> 38 choosing[0] = 0
step 1 -> 28 number[0] 1
step 1 -> 36 number[1] = 2 ready
step 1 -> 38 choosing[1] = 0
step 0 -> 41 choosing[1] 0
step 1 -> 41 choosing[0] 0
step 0 -> 42 number[1] 2
step 1 -> 42 number[0] 1 blocked
step 0 -> 44 inside[0] = 1 enter
withdraw 0 -> refused: not waiting
step 0 -> 47 ruined 0 done clean
unlock 0 -> started
step 0 -> 58 number[0] = 0 leave
step 0 -> 59 inside[0] = 0 done unlocked
lock 0 -> started
step 0 -> 12 choosing[0] 0
withdraw 0 -> refused: not waiting
step 1 -> 42 number[0] 0
step 0 -> 13 number[0] 0
crash 0 -> crashed
lock 0 -> started
step 0 -> 12 choosing[0] 0
step 0 -> 13 number[0] 0
step 0 -> 14 inside[0] 0
step 0 -> 24 choosing[0] = 1 begin
step 0 -> 28 number[1] 2
crash 0 -> crashed
lock 0 -> started
withdraw 1 -> started
step 1 -> 82 number[1] = 0 quit done withdrawn
step 0 -> 12 choosing[0] 1
lock 1 -> started
step 0 -> 13 number[0] 0
step 0 -> 14 inside[0] 0
step 1 -> 12 choosing[1] 0
step 0 -> 28 number[1] 0
words 1 0 0 0 0 0 0
== bakery_1974 2 2
step 2 -> refused: no such process
step 0 -> refused: nothing to do
withdraw 0 -> refused: no such call
lock 1 -> started
step 1 -> 9 choosing[1] = 1 begin
lock 0 -> started
step 1 -> 12 number[0] 0
step 0 -> 9 choosing[0] = 1 begin
step 0 -> 12 number[1] 0
step 0 -> 16 number[0] = 1 ready
step 1 -> 16 number[1] = 1 ready
step 1 -> 17 choosing[1] = 0
withdraw 0 -> refused: no such call
step 0 -> 17 choosing[0] = 0
step 0 -> 19 choosing[1] 0
step 1 -> 19 choosing[0] 0
step 0 -> 20 number[1] 1 enter done
unlock 0 -> started
step 1 -> 20 number[0] 1 blocked
step 1 -> 20 number[0] 1 blocked
step 1 -> 20 number[0] 1 blocked
step 0 -> 26 number[0] = 0 leave done
lock 0 -> started
step 0 -> 9 choosing[0] = 1 begin
step 1 -> 20 number[0] 0 enter done
step 0 -> 12 number[1] 1
step 0 -> 16 number[0] = 2 ready
step 0 -> 17 choosing[0] = 0
step 0 -> 19 choosing[1] 0
step 0 -> 20 number[1] 1 blocked
step 0 -> 20 number[1] 1 blocked
step 0 -> 20 number[1] 1 blocked
unlock 1 -> started
step 0 -> 20 number[1] 1 blocked
step 1 -> 26 number[1] = 0 leave done
step 0 -> 20 number[1] 0 enter done
unlock 0 -> started
withdraw 0 -> refused: no such call
step 0 -> 26 number[0] = 0 leave done
recover 0 -> refused: no such call
lock 1 -> started
recover 0 -> refused: no such call
lock 0 -> started
step 0 -> 9 choosing[0] = 1 begin
step 0 -> 12 number[1] 0
step 1 -> 9 choosing[1] = 1 begin
step 1 -> 12 number[0] 0
step 0 -> 16 number[0] = 1 ready
withdraw 1 -> refused: no such call
step 0 -> 17 choosing[0] = 0
step 1 -> 16 number[1] = 1 ready
step 0 -> 19 choosing[1] 1 blocked
step 1 -> 17 choosing[1] = 0
withdraw 0 -> refused: no such call
step 1 -> 19 choosing[0] 0
step 0 -> 19 choosing[1] 0
step 0 -> 20 number[1] 1 enter done
unlock 0 -> started
step 1 -> 20 number[0] 1 blocked
step 1 -> 20 number[0] 1 blocked
words 0 0 1 1
";
