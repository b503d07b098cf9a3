//! Drawings of the Bakeries.

pub const BAKERIES: &str = r"picture of bakeries
== bakery_1974
--
0                         1                         |
: w choosing[0]=1         .                         | begin 0
: r number[1] 0           .                         |
| w number[0]=1           .                         | ready 0
| w choosing[0]=0         .                         |
| r choosing[1] 0         .                         |
# r number[1] 0           .                         | enter 0
#                         .                         | answer 0 done
#                         : w choosing[1]=1         | begin 1
#                         : r number[0] 1           |
#                         | w number[1]=2           | ready 1
#                         | w choosing[1]=0         |
#                         | r choosing[0] 0         |
#                         | await number[0] 1 ×5    |
x                         |                         | leave 0
                          |                         | crash 0
: w choosing[0]=1         |                         | begin 0
: r number[1] 2           |                         |
line 8 refused 16
. rest  : doorway  | waiting  # section  x crash
ended: refused 8 16
picture 5490679870352790400
== bakery
--
0                         1                         |
. r choosing[0] 0         .                         |
. r number[0] 0           .                         |
. r inside[0] 0           .                         |
: w choosing[0]=1         .                         | begin 0
: r number[1] 0           .                         |
| w number[0]=1           .                         | ready 0
| w choosing[0]=0         .                         |
| r choosing[1] 0         .                         |
|                         . r choosing[1] 0         |
|                         . r number[1] 0           |
|                         . r inside[1] 0           |
|                         : w choosing[1]=1         | begin 1
|                         : r number[0] 1           |
|                         | w number[1]=2           | ready 1
|                         | w choosing[1]=0         |
|                         | r choosing[0] 0         |
|                         | await number[0] 1 ×2    |
x                         |                         | crash 0
| r choosing[0] 0         |                         |
| r number[0] 1           |                         |
| r inside[0] 0           |                         |
| r choosing[1] 0         |                         |
|                         | await number[0] 1 ×2    |
line 10 refused 4
. rest  : doorway  | waiting  # section  x crash
ended: refused 10 4
picture 5623589707359010848
== bakery_ruin
--
0                         1                         |
. r choosing[0] 0         .                         |
. r number[0] 0           .                         |
. r inside[0] 0           .                         |
: w choosing[0]=1         .                         | begin 0
: r number[1] 0           .                         |
| w number[0]=1           .                         | ready 0
| w choosing[0]=0         .                         |
| r choosing[1] 0         .                         |
|                         . r choosing[1] 0         |
|                         . r number[1] 0           |
|                         . r inside[1] 0           |
|                         : w choosing[1]=1         | begin 1
|                         : r number[0] 1           |
|                         | w number[1]=2           | ready 1
|                         | w choosing[1]=0         |
|                         | r choosing[0] 0         |
|                         | await number[0] 1 ×2    |
x                         |                         | crash 0
| r choosing[0] 0         |                         |
| r number[0] 1           |                         |
| r inside[0] 0           |                         |
| r choosing[1] 0         |                         |
|                         | await number[0] 1 ×2    |
line 10 refused 4
. rest  : doorway  | waiting  # section  x crash
ended: refused 10 4
picture 5623589707359010848
== no_look
--
0                         1                         |
. r choosing[0] 0         .                         |
. r number[0] 0           .                         |
. r inside[0] 0           .                         |
: w choosing[0]=1         .                         | begin 0
: r number[1] 0           .                         |
| w number[0]=1           .                         | ready 0
| w choosing[0]=0         .                         |
| r number[1] 0           .                         |
|                         . r choosing[1] 0         |
|                         . r number[1] 0           |
|                         . r inside[1] 0           |
|                         : w choosing[1]=1         | begin 1
|                         : r number[0] 1           |
|                         | w number[1]=2           | ready 1
|                         | w choosing[1]=0         |
|                         | await number[0] 1 ×3    |
x                         |                         | crash 0
| r choosing[0] 0         |                         |
| r number[0] 1           |                         |
| r inside[0] 0           |                         |
| r number[1] 2           |                         |
|                         | await number[0] 1 ×2    |
line 10 refused 4
. rest  : doorway  | waiting  # section  x crash
ended: refused 10 4
picture 8445631426905390710
== no_ties
--
0                         1                         |
. r choosing[0] 0         .                         |
. r number[0] 0           .                         |
. r inside[0] 0           .                         |
: w choosing[0]=1         .                         | begin 0
: r number[1] 0           .                         |
| w number[0]=1           .                         | ready 0
| w choosing[0]=0         .                         |
| r choosing[1] 0         .                         |
|                         . r choosing[1] 0         |
|                         . r number[1] 0           |
|                         . r inside[1] 0           |
|                         : w choosing[1]=1         | begin 1
|                         : r number[0] 1           |
|                         | w number[1]=2           | ready 1
|                         | w choosing[1]=0         |
|                         | r choosing[0] 0         |
|                         | await number[0] 1 ×2    |
x                         |                         | crash 0
| r choosing[0] 0         |                         |
| r number[0] 1           |                         |
| r inside[0] 0           |                         |
| r choosing[1] 0         |                         |
|                         | await number[0] 1 ×2    |
line 10 refused 4
. rest  : doorway  | waiting  # section  x crash
ended: refused 10 4
picture 5623589707359010848
== renumber
--
0                         1                         |
. r choosing[0] 0         .                         |
. r number[0] 0           .                         |
. r inside[0] 0           .                         |
: w choosing[0]=1         .                         | begin 0
: r number[1] 0           .                         |
| w number[0]=1           .                         | ready 0
| w choosing[0]=0         .                         |
| r choosing[1] 0         .                         |
|                         . r choosing[1] 0         |
|                         . r number[1] 0           |
|                         . r inside[1] 0           |
|                         : w choosing[1]=1         | begin 1
|                         : r number[0] 1           |
|                         | w number[1]=2           | ready 1
|                         | w choosing[1]=0         |
|                         | r choosing[0] 0         |
|                         | await number[0] 1 ×2    |
x                         |                         | crash 0
| r choosing[0] 0         |                         |
| r number[0] 1           |                         |
| r inside[0] 0           |                         |
| r choosing[1] 0         |                         |
|                         | await number[0] 1 ×2    |
line 10 refused 4
. rest  : doorway  | waiting  # section  x crash
ended: refused 10 4
picture 5623589707359010848
== exit_on_crash
--
0                         1                         |
. r choosing[0] 0         .                         |
. r number[0] 0           .                         |
. r inside[0] 0           .                         |
: w choosing[0]=1         .                         | begin 0
: r number[1] 0           .                         |
| w number[0]=1           .                         | ready 0
| w choosing[0]=0         .                         |
| r choosing[1] 0         .                         |
|                         . r choosing[1] 0         |
|                         . r number[1] 0           |
|                         . r inside[1] 0           |
|                         : w choosing[1]=1         | begin 1
|                         : r number[0] 1           |
|                         | w number[1]=2           | ready 1
|                         | w choosing[1]=0         |
|                         | r choosing[0] 0         |
|                         | await number[0] 1 ×2    |
x                         |                         | crash 0
| r choosing[0] 0         |                         |
| r number[0] 1           |                         |
| r inside[0] 0           |                         |
| r choosing[1] 0         |                         |
|                         | await number[0] 1 ×2    |
line 10 refused 4
. rest  : doorway  | waiting  # section  x crash
ended: refused 10 4
picture 5623589707359010848
";
