//! Drawings of the other locks.

pub const OTHERS: &str = r"picture of other locks
== peterson
--
0                         1                         |
. w flag[0]=1             .                         |
. w turn=1                .                         |
# r flag[1] 0             .                         | begin 0
#                         .                         | ready 0
#                         .                         | enter 0
#                         .                         | answer 0 done
#                         . w flag[1]=1             |
#                         . w turn=0                |
#                         . r flag[0] 1             |
#                         . r turn 0                |
#                         . r flag[0] 1             |
#                         . r turn 0                |
#                         . r flag[0] 1             |
#                         . r turn 0                |
#                         . r flag[0] 1             |
#                         . r turn 0                |
x                         .                         | crash 0
  w flag[0]=1             .                         |
  w turn=1                .                         |
  r flag[1] 1             .                         |
  r turn 1                .                         |
                          . r flag[0] 1             |
                          # r turn 1                | begin 1
                          #                         | ready 1
                          #                         | >>> enter 1
                          #                         | answer 1 done
verdict against 3 at 7
. rest  : doorway  | waiting  # section  x crash
ended: against at 7
picture 6044797182028309743
== peterson_order
--
0                         1                         |
: w flag[0]=1             .                         | begin 0
| w turn=1                .                         | ready 0
# r flag[1] 0             .                         | enter 0
#                         .                         | answer 0 done
#                         : w flag[1]=1             | begin 1
#                         | w turn=0                | ready 1
#                         | r flag[0] 1             |
#                         | r turn 0                |
#                         | r flag[0] 1             |
#                         | r turn 0                |
#                         | r flag[0] 1             |
#                         | r turn 0                |
#                         | r flag[0] 1             |
#                         | r turn 0                |
x                         |                         | leave 0
                          |                         | crash 0
: w flag[0]=1             |                         | begin 0
| w turn=1                |                         | ready 0
| r flag[1] 1             |                         |
| r turn 1                |                         |
|                         | r flag[0] 1             |
|                         # r turn 1                | enter 1
|                         #                         | answer 1 done
verdict fine
. rest  : doorway  | waiting  # section  x crash
ended: fine
picture 4345249585520641798
== recoverable_peterson
--
0                         1                         |
. r flag[0] 0             .                         |
: w flag[0]=1             .                         | begin 0
: w turn=1                .                         |
| w flag[0]=2             .                         | ready 0
| r flag[1] 0             .                         |
# w flag[0]=3             .                         | enter 0
#                         .                         | answer 0 clean
#                         . r flag[1] 0             |
#                         : w flag[1]=1             | begin 1
#                         : w turn=0                |
#                         | w flag[1]=2             | ready 1
#                         | r flag[0] 3             |
#                         | r turn 0                |
#                         | r flag[0] 3             |
#                         | r turn 0                |
#                         | r flag[0] 3             |
#                         | r turn 0                |
x                         |                         | crash 0
# r flag[0] 3             |                         | reenter 0
#                         |                         | answer 0 owner-died
#                         | r flag[0] 3             |
#                         | r turn 0                |
line 10 refused 4
. rest  : doorway  | waiting  # section  x crash
ended: refused 10 4
picture 5214825465431945906
== forgetful_peterson
--
0                         1                         |
. r flag[0] 0             .                         |
: w flag[0]=1             .                         | begin 0
| w turn=1                .                         | ready 0
| r flag[1] 0             .                         |
# w flag[0]=2             .                         | enter 0
#                         .                         | answer 0 clean
#                         . r flag[1] 0             |
#                         : w flag[1]=1             | begin 1
#                         | w turn=0                | ready 1
#                         | r flag[0] 2             |
#                         | r turn 0                |
#                         | r flag[0] 2             |
#                         | r turn 0                |
#                         | r flag[0] 2             |
#                         | r turn 0                |
#                         | r flag[0] 2             |
x                         |                         | crash 0
# r flag[0] 2             |                         | reenter 0
#                         |                         | answer 0 owner-died
#                         | r turn 0                |
#                         | r flag[0] 2             |
line 10 refused 4
. rest  : doorway  | waiting  # section  x crash
ended: refused 10 4
picture 13420390156360706905
== lamport_fast
--
0                         1                         |
. w b[0]=1                .                         |
. w x=0                   .                         |
. r y 0                   .                         |
. w y=1                   .                         |
# r x 0                   .                         | begin 0
#                         .                         | ready 0
#                         .                         | enter 0
#                         .                         | answer 0 done
#                         . w b[1]=1                |
#                         . w x=1                   |
#                         . r y 1                   |
#                         . w b[1]=0                |
#                         . await y 1 ×6            |
x                         .                         | leave 0
                          .                         | crash 0
. w b[0]=1                .                         |
. w x=0                   .                         |
. r y 1                   .                         |
. w b[0]=0                .                         |
.                         . await y 1 ×2            |
line 10 refused 4
. rest  : doorway  | waiting  # section  x crash
ended: refused 10 4
picture 16992527926129087413
== one_word
--
0                         1                         |
. r held 0                .                         |
# w held=1                .                         | begin 0
#                         .                         | ready 0
#                         .                         | enter 0
#                         .                         | answer 0 done
#                         . await held 1 ×10        |
x                         .                         | leave 0
                          .                         | crash 0
. await held 1 ×4         .                         |
.                         . await held 1 ×2         |
line 10 refused 4
. rest  : doorway  | waiting  # section  x crash
ended: refused 10 4
picture 16528373104576387870
== szymanski
--
0                         1                         |
. w flag[0]=1             .                         |
. r flag[1] 0             .                         |
. w flag[0]=3             .                         |
. r flag[1] 0             .                         |
# w flag[0]=4             .                         | begin 0
#                         .                         | ready 0
#                         .                         | enter 0
#                         .                         | answer 0 done
#                         . w flag[1]=1             |
#                         . await flag[0] 4 ×9      |
x                         .                         | leave 0
                          .                         | crash 0
. w flag[0]=1             .                         |
. r flag[1] 1             .                         |
. w flag[0]=3             .                         |
. r flag[1] 1             .                         |
.                         . await flag[0] 3 ×2      |
line 10 refused 4
. rest  : doorway  | waiting  # section  x crash
ended: refused 10 4
picture 140191467925505860
";
