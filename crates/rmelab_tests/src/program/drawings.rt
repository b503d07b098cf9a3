//! Schedules that are drawn: as text and as SVG, under a variant, from an image, and up to a line that is refused.

use crate::replays::stepwise;
use crate::support::invocation::all_come_to;
use crate::support::row::text_named;
use diagram::page_text::{PAGE_HEAD, PAGE_SCRIPT, PAGE_STEP};
use std::test::Fail;

/// One process that locks and enters, and its drawing.
pub const TEXTS: &str = r#"
@text SMALLEST
rme 1 procs 1 limit 10 cap 1
lock 0
step 0 8
@text DRAWN
0                         |
. r choosing 0            |
. r number 0              |
. r inside 0              |
: w choosing=1            | begin 0
| w number=1              | ready 0
| w choosing=0            |
# w inside=1              | enter 0
# r ruined 0              | answer 0 clean
verdict fine
. rest  : doorway  | waiting  # section  x crash
@text OTHER
a text that no command reads
@text PICTURE
<svg xmlns='http://www.w3.org/2000/svg' width='552' height='284' viewBox='0 0 552 284'>
<title>a run of the lock, time downward</title><style>text{font:12px monospace;fill:#000}.p{font-weight:bold}circle{stroke:#fff}.rest{fill:#fff;stroke:#777}.doorway{fill:#f0e442;stroke:#555}.waiting{fill:#e69f00;stroke:#555}.section{fill:#0072b2;stroke:#0072b2}.dead{fill:url(#gone);stroke:#fff;stroke-width:2}.crash{fill:none;stroke:#000;stroke-width:2.5}.mailbox{stroke:#555;stroke-width:3}.join{stroke:#555;stroke-dasharray:2}.against{fill:none;stroke:#d55e00;stroke-width:2}</style>
<defs><pattern id='gone' width='8' height='6' x='-4' patternUnits='userSpaceOnUse'><rect width='8' height='6' fill='#fff'/><rect x='3' width='2' height='2'/></pattern></defs><rect width='100%' height='100%' fill='#fff'/>
<g transform='translate(24 30)'><rect class='rest' x='-4.5' y='.5' width='9' height='14'/><text x='10' y='12'>rest</text></g>
<g transform='translate(84 30)'><rect class='doorway' x='-4.5' y='.5' width='9' height='14'/><text x='10' y='12'>doorway</text></g>
<g transform='translate(168 30)'><rect class='waiting' x='-4.5' y='.5' width='9' height='14'/><text x='10' y='12'>waiting</text></g>
<g transform='translate(252 30)'><rect class='section' x='-4.5' y='.5' width='9' height='14'/><text x='10' y='12'>section</text></g>
<g transform='translate(336 30)'><rect class='dead' x='-4.5' y='.5' width='9' height='14'/><text x='10' y='12'>dead</text></g>
<path class='crash' d='M394 32l10 10m0 -10l-10 10'/><text x='412' y='42'>crash</text><circle class='against' cx='470' cy='37' r='6'/><text x='482' y='42'>against</text>
<g transform='translate(252 80)'><title>mailbox</title><text class='p' text-anchor='middle' y='-8'>mailbox</text><path class='mailbox' d='M0 0V164'/></g>
<g transform='translate(60 80)'><title>process 0</title><text class='p' text-anchor='middle' y='-8'>0</text><rect class='rest' x='-4.5' y='.5' width='9' height='164'/></g>
<g transform='translate(60 100)'><title>process 0 r choosing 0
</title><circle r='3'/><text x='10' y='4'><tspan class='p'>0</tspan> r choosing 0</text></g>
<g transform='translate(60 118)'><title>process 0 r number 0
</title><circle r='3'/><text x='10' y='4'><tspan class='p'>0</tspan> r number 0</text></g>
<g transform='translate(60 136)'><title>process 0 r inside 0
</title><circle r='3'/><text x='10' y='4'><tspan class='p'>0</tspan> r inside 0</text></g>
<g transform='translate(60 154)'><title>process 0 w choosing=1
begin 0
</title><rect class='doorway' x='-4.5' y='.5' width='9' height='90'/><circle r='3'/><text x='10' y='4'><tspan class='p'>0</tspan> w choosing=1</text><text y='4' x='208'>begin 0
</text></g>
<g transform='translate(60 172)'><title>process 0 w number=1
ready 0
</title><rect class='waiting' x='-4.5' y='.5' width='9' height='72'/><circle r='3'/><text x='10' y='4'><tspan class='p'>0</tspan> w number=1</text><text y='4' x='208'>ready 0
</text></g>
<g transform='translate(60 190)'><title>process 0 w choosing=0
</title><rect class='waiting' x='-4.5' y='.5' width='9' height='54'/><circle r='3'/><text x='10' y='4'><tspan class='p'>0</tspan> w choosing=0</text></g>
<g transform='translate(60 208)'><title>process 0 w inside=1
enter 0
</title><rect class='section' x='-4.5' y='.5' width='9' height='36'/><circle r='3'/><text x='10' y='4'><tspan class='p'>0</tspan> w inside=1</text><text y='4' x='208'>enter 0
</text></g>
<g transform='translate(60 226)'><title>process 0 r ruined 0
answer 0 clean
</title><rect class='section' x='-4.5' y='.5' width='9' height='18'/><circle r='3'/><text x='10' y='4'><tspan class='p'>0</tspan> r ruined 0</text><text y='4' x='208'>answer 0 clean
</text></g>
<text x='20' y='268'>verdict fine
</text></svg>
@text AGAIN
rme 1 procs 1 limit 10 cap 1
lock 0
step 0 4
@text AGAIN_DRAWN
0                         |
  r choosing 0            |
  r number 1              |
# r inside 1              | reenter 0
# r ruined 0              | answer 0 owner-died
verdict fine
. rest  : doorway  | waiting  # section  x crash
@text IMAGE
{"cap":1,"data":[0,0,0,0,0,0,0,0,0,0,0,0,0,0,0],"limit":10,"lock":[[0,1,1]],"version":2,"width":1}
@text BAD_VARIANT
rmelab: bad variant
@text UNREAD
rmelab: read failed
@text TOO_MANY_PROCS
rmelab: line 1: refused 1
@text UNWRITTEN
rmelab: write failed
"#;

/// A page is the drawing and the lines of a run between fixed parts.
const PAGES: &str = "
@row rmelab draw --html @in SMALLEST @out PAGE
@row rmelab draw --svg --html @in SMALLEST @out PAGE
@row rmelab draw --html @in SMALLEST @fails write @ends 3 @err UNWRITTEN
@row rmelab draw --html @ends 2 @err
rmelab: line 1: fault 1
";

#[test]
fn pages(rt: HostRuntime) -> Result<(), Fail> {
    let picture = text_named("", &[TEXTS], "PICTURE").unwrap_or("");
    let lines = text_named("", &[stepwise::TEXTS], "LINES").unwrap_or("");
    let page = format!(in rt.alloc();
        "@text PAGE\n{PAGE_HEAD}{picture}{PAGE_STEP}{lines}{PAGE_SCRIPT}"
    )?;
    all_come_to(&rt, rt.alloc(), &[TEXTS, page.as_str()], PAGES)
}

/// A drawing up to the line that is refused is whole. If the text isn't a schedule, nothing is drawn.
pub const DRAWINGS: &str = r#"
@row rmelab draw @in SMALLEST @out DRAWN
@row rmelab draw s.rme @in OTHER @file s.rme SMALLEST @out DRAWN
@row rmelab draw --svg @in SMALLEST @out PICTURE
@row rmelab draw --variant right @in SMALLEST @out DRAWN
@row rmelab draw @in
rme 1 procs 1 limit 10 cap 1
@out
0                         |
verdict fine
. rest  : doorway  | waiting  # section  x crash
@row rmelab draw --variant no-look @ends 1 @in
rme 1 procs 2 limit 10 cap 1
lock 0
lock 1
step 0 5
step 1 6
step 1 4
step 0 6
@out
0                         1                         |
. r choosing 0            .                         |
. r number 0              .                         |
. r inside 0              .                         |
: w choosing=1            .                         | begin 0
: r number[1] 0           .                         |
:                         . r choosing 0            |
:                         . r number 0              |
:                         . r inside 0              |
:                         : w choosing=1            | begin 1
:                         : r number[0] 0           |
:                         | w number=1              | ready 1
:                         | w choosing=0            |
:                         | r number[0] 0           |
:                         # w inside=1              | enter 1
:                         # r ruined 0              | answer 1 clean
| w number=1              #                         | ready 0
| w choosing=0            #                         |
| r number[1] 1           #                         |
# w inside=1              #                         | >>> enter 0
# r ruined 0              #                         | answer 0 clean
verdict against 2 at 6
. rest  : doorway  | waiting  # section  x crash
@row rmelab draw --image a.json @in AGAIN @file a.json IMAGE @out AGAIN_DRAWN
@row rmelab draw --image a.json s.rme @in OTHER @file a.json IMAGE @file s.rme AGAIN @out AGAIN_DRAWN
@row rmelab draw --image a.json @in AGAIN @ends 2 @file a.json
{"cap":1,"data":[0,0,0,0,0,0,0,0,0,0,0,0,0,0,0,0,0,0,0,0,0,0,0,0,0,0,0,0,0],"limit":10,"lock":[[0,1,1]],"version":2,"width":8}
@err
rmelab: line 1: refused 9
@row rmelab draw --image a.json @in AGAIN @ends 2 @file a.json
[]@err
rmelab: image: rule 1
@row rmelab draw --variant no-look --image a.json @in AGAIN @file a.json IMAGE @ends 2 @err BAD_VARIANT
@row rmelab draw --image a.json @in AGAIN @ends 3 @err UNREAD
@row rmelab draw @ends 2 @in
rme 1 procs 1 limit 10 cap 1
lock 0
step 0 8
consistent 0
@out
0                         |
. r choosing 0            |
. r number 0              |
. r inside 0              |
: w choosing=1            | begin 0
| w number=1              | ready 0
| w choosing=0            |
# w inside=1              | enter 0
# r ruined 0              | answer 0 clean
line 4 refused 10
. rest  : doorway  | waiting  # section  x crash
@err
rmelab: line 4: refused 10
@row rmelab draw @ends 2 @err TOO_MANY_PROCS @in
rme 1 procs 65 limit 10 cap 1
@row rmelab draw --variant no-ties @ends 2 @err TOO_MANY_PROCS @in
rme 1 procs 65 limit 10 cap 1
@row rmelab draw @ends 2 @in
rme 1 procs 1 limit 10 cap 1
lock 01
@err
rmelab: line 2: fault 3
@row rmelab draw --variant wrong @in SMALLEST @ends 2 @err BAD_VARIANT
@row rmelab draw @in SMALLEST @fails read @ends 3 @err UNREAD
@row rmelab draw s.rme @in SMALLEST @file s.rme SMALLEST @fails file-read @ends 3 @err UNREAD
@row rmelab draw --svg @in SMALLEST @fails write @ends 3 @err UNWRITTEN
@row rmelab draw @in SMALLEST @fails flush @out DRAWN @ends 3 @err UNWRITTEN
@row rmelab draw s.rme @in SMALLEST @fails file-memory @ends 3 @err
rmelab: out of memory
"#;
