//! Replays of the other locks.

pub const OTHERS: &str = r"run other locks
== peterson 2 1
step 2 -> refused: no such process
step 0 -> refused: nothing to do
withdraw 0 -> refused: no such call
lock 0 -> started
step 0 -> 9 flag[0] = 1
lock 1 -> started
step 1 -> 9 flag[1] = 1
step 0 -> 10 turn = 1
step 0 -> 12 flag[1] 1
step 1 -> 10 turn = 0
step 0 -> 14 turn 0 enter done
step 1 -> 12 flag[0] 1
unlock 0 -> started
step 0 -> 21 flag[0] = 0 leave done
recover 0 -> refused: no such call
lock 0 -> started
step 1 -> 14 turn 0
step 1 -> 12 flag[0] 0 enter done
step 0 -> 9 flag[0] = 1
unlock 1 -> started
step 1 -> 21 flag[1] = 0 leave done
step 0 -> 10 turn = 1
lock 1 -> started
step 1 -> 9 flag[1] = 1
step 0 -> 12 flag[1] 1
step 1 -> 10 turn = 0
step 1 -> 12 flag[0] 1
step 1 -> 14 turn 0
step 0 -> 14 turn 0 enter done
step 1 -> 12 flag[0] 1
step 1 -> 14 turn 0
unlock 0 -> started
step 1 -> 12 flag[0] 1
step 0 -> 21 flag[0] = 0 leave done
step 1 -> 14 turn 0
lock 0 -> started
step 1 -> 12 flag[0] 0 enter done
step 0 -> 9 flag[0] = 1
unlock 1 -> started
step 1 -> 21 flag[1] = 0 leave done
words 1 0 0
== recoverable_peterson 2 1
step 2 -> refused: no such process
step 0 -> refused: nothing to do
withdraw 0 -> refused: not waiting
lock 1 -> started
lock 0 -> started
step 0 -> 10 flag[0] 0
step 0 -> 17 flag[0] = 1 begin
step 1 -> 10 flag[1] 0
step 1 -> 17 flag[1] = 1 begin
crash 0 -> crashed
lock 0 -> started
step 0 -> 10 flag[0] 1
step 1 -> 19 turn = 0
step 0 -> 19 turn = 1
step 1 -> 20 flag[1] = 2 ready
step 0 -> 20 flag[0] = 2 ready
step 0 -> 22 flag[1] 2
step 0 -> 24 turn 1
step 0 -> 22 flag[1] 2
step 1 -> 22 flag[0] 2
step 0 -> 24 turn 1
step 0 -> 22 flag[1] 2
step 0 -> 24 turn 1
step 1 -> 24 turn 1
step 1 -> 27 flag[1] = 3 enter done clean
step 0 -> 22 flag[1] 3
unlock 1 -> started
step 0 -> 24 turn 1
lock 1 -> refused: call under way
step 1 -> 31 flag[1] = 0 leave done unlocked
lock 1 -> started
step 0 -> 22 flag[1] 0
withdraw 0 -> started
step 0 -> 43 flag[0] = 0 quit done withdrawn
step 1 -> 10 flag[1] 0
lock 0 -> started
step 1 -> 17 flag[1] = 1 begin
step 0 -> 10 flag[0] 0
step 0 -> 17 flag[0] = 1 begin
step 0 -> 19 turn = 1
step 0 -> 20 flag[0] = 2 ready
step 1 -> 19 turn = 0
step 1 -> 20 flag[1] = 2 ready
step 1 -> 22 flag[0] 2
step 0 -> 22 flag[1] 2
step 1 -> 24 turn 0
step 0 -> 24 turn 0
step 0 -> 27 flag[0] = 3 enter done clean
step 1 -> 22 flag[0] 3
step 1 -> 24 turn 0
unlock 0 -> started
step 1 -> 22 flag[0] 3
step 0 -> 31 flag[0] = 0 leave done unlocked
step 1 -> 24 turn 0
lock 0 -> started
step 0 -> 10 flag[0] 0
withdraw 1 -> started
step 1 -> 43 flag[1] = 0 quit done withdrawn
lock 1 -> started
withdraw 0 -> refused: not waiting
words 0 0 0
== lamport_fast 3 1
step 3 -> refused: no such process
step 0 -> refused: nothing to do
withdraw 0 -> refused: no such call
lock 0 -> started
step 0 -> 11 b[0] = 1
lock 2 -> started
lock 2 -> refused: call under way
step 0 -> 12 x = 0
lock 1 -> started
step 0 -> 13 y 0
step 2 -> 11 b[2] = 1
step 2 -> 12 x = 2
step 2 -> 13 y 0
step 0 -> 19 y = 1
step 2 -> 19 y = 3
step 0 -> 20 x 2
step 0 -> 22 b[0] = 0
withdraw 2 -> refused: no such call
step 0 -> 24 b[1] 0
step 1 -> 11 b[1] = 1
step 2 -> 20 x 2 enter done
step 1 -> 12 x = 1
step 1 -> 13 y 3
unlock 2 -> started
step 0 -> 24 b[2] 1 blocked
withdraw 0 -> refused: no such call
step 1 -> 15 b[1] = 0
step 2 -> 35 y = 0 leave
step 2 -> 36 b[2] = 0 done
step 1 -> 16 y 0
step 1 -> 11 b[1] = 1
lock 2 -> started
step 2 -> 11 b[2] = 1
step 1 -> 12 x = 1
step 0 -> 24 b[2] 1 blocked
step 2 -> 12 x = 2
step 0 -> 24 b[2] 1 blocked
step 1 -> 13 y 0
step 2 -> 13 y 0
step 2 -> 19 y = 3
step 2 -> 20 x 2 enter done
unlock 2 -> started
lock 0 -> refused: call under way
step 2 -> 35 y = 0 leave
step 0 -> 24 b[2] 1 blocked
step 0 -> 24 b[2] 1 blocked
withdraw 0 -> refused: no such call
step 1 -> 19 y = 2
withdraw 0 -> refused: no such call
step 2 -> 36 b[2] = 0 done
step 1 -> 20 x 2
step 1 -> 22 b[1] = 0
step 1 -> 24 b[0] 0
step 0 -> 24 b[2] 0
step 0 -> 26 y 2
recover 2 -> refused: no such call
step 0 -> 28 y 2 blocked
step 1 -> 24 b[2] 0
step 0 -> 28 y 2 blocked
step 1 -> 26 y 2 enter done
words 0 0 0 2 2
== szymanski 3 1
step 3 -> refused: no such process
step 0 -> refused: nothing to do
withdraw 0 -> refused: no such call
lock 1 -> started
step 1 -> 8 flag[1] = 1
recover 2 -> refused: no such call
lock 2 -> started
step 2 -> 8 flag[2] = 1
lock 0 -> started
step 0 -> 8 flag[0] = 1
step 2 -> 10 flag[0] 1
step 2 -> 10 flag[1] 1
step 1 -> 10 flag[0] 1
step 2 -> 12 flag[2] = 3
withdraw 2 -> refused: no such call
lock 2 -> refused: call under way
step 0 -> 10 flag[1] 1
step 0 -> 10 flag[2] 3 blocked
step 1 -> 10 flag[2] 3 blocked
step 2 -> 14 flag[0] 1
step 2 -> 19 flag[2] = 2
step 1 -> 10 flag[2] 2
step 2 -> 22 flag[0] 1
step 2 -> 22 flag[1] 1
step 2 -> 22 flag[0] 1
step 0 -> 10 flag[2] 2
step 1 -> 12 flag[1] = 3
step 2 -> 22 flag[1] 3
step 0 -> 12 flag[0] = 3
step 0 -> 14 flag[1] 3
step 1 -> 14 flag[0] 3
step 0 -> 14 flag[2] 2
step 0 -> 27 flag[0] = 4 enter done
unlock 0 -> started
step 2 -> 22 flag[0] 4
step 0 -> 36 flag[1] 3 blocked
step 0 -> 36 flag[1] 3 blocked
step 1 -> 14 flag[2] 2
step 1 -> 27 flag[1] = 4
step 1 -> 29 flag[0] 4 blocked
step 0 -> 36 flag[1] 4
step 2 -> 27 flag[2] = 4
step 0 -> 36 flag[2] 4
step 1 -> 29 flag[0] 4 blocked
step 2 -> 29 flag[0] 4 blocked
step 2 -> 29 flag[0] 4 blocked
step 2 -> 29 flag[0] 4 blocked
step 1 -> 29 flag[0] 4 blocked
step 0 -> 38 flag[0] = 0 leave done
recover 0 -> refused: no such call
step 2 -> 29 flag[0] 0
lock 0 -> started
step 1 -> 29 flag[0] 0 enter done
step 2 -> 29 flag[1] 4 blocked
withdraw 0 -> refused: no such call
step 0 -> 8 flag[0] = 1
unlock 1 -> started
step 2 -> 29 flag[1] 4 blocked
step 1 -> 36 flag[2] 4
step 0 -> 10 flag[1] 4 blocked
step 2 -> 29 flag[1] 4 blocked
step 0 -> 10 flag[1] 4 blocked
step 1 -> 38 flag[1] = 0 leave done
step 0 -> 10 flag[1] 0
lock 1 -> started
step 0 -> 10 flag[2] 4 blocked
step 0 -> 10 flag[2] 4 blocked
step 1 -> 8 flag[1] = 1
step 2 -> 29 flag[1] 1 enter done
step 0 -> 10 flag[2] 4 blocked
words 1 1 4
";
