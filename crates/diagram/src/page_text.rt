//! The fixed parts of a page.

/// Up to the drawing: what the page is, and how it looks.
pub const PAGE_HEAD: &str = r#"<!doctype html>
<html lang='en'>
<head>
<meta charset='utf-8'>
<meta name='viewport' content='width=device-width'>
<title>a run, step by step</title>
<script>document.documentElement.className = 'opening';</script>
<style>
.opening svg{display:none}
body{margin:0;display:flex;flex-wrap:wrap;height:100vh;font:14px sans-serif;color:#000;background:#fff}
#drawing{flex:1 1 30em;height:100%;margin:0;overflow:auto}
#step{flex:0 1 36em;height:100%;box-sizing:border-box;padding:0 1em;overflow:auto;border-left:1px solid #777}
#place{width:100%}
#event{min-height:4.5em;margin:.5em 0;padding:.5em;font:bold 15px monospace;border:1px solid #777}
#kind{min-height:3.5em}
table{border-collapse:collapse;margin:.3em 0 1em}
caption{text-align:left;font-weight:bold}
th,td{padding:.1em .6em;text-align:left;border:1px solid #777}
tr[aria-current]{font-weight:bold;outline:3px solid #000;background:#eee}
button{font:inherit}
</style>
</head>
<body>
<figure id='drawing'>
"#;

/// Between the drawing and the lines: what shows a step.
pub const PAGE_STEP: &str = r#"</figure>
<main id='step'>
<h1 id='title'>Before the first step</h1>
<input id='place' type='range' min='0' value='0' aria-label='the step that is shown'>
<p><button id='back'>&larr; back</button> <button id='on'>on &rarr;</button> or the keys &larr; &rarr; Home End</p>
<pre id='event' aria-live='polite'></pre>
<p id='kind'></p>
<table><caption>Words of the processes</caption>
<thead><tr><th>process<th>phase<th>choosing<th>number<th>inside</thead><tbody id='words'></tbody></table>
<table><caption>Restart table: what a lock does next after a crash</caption>
<thead><tr><th>words<th>meaning<th>next<th>processes</thead><tbody id='restart'></tbody></table>
<table><caption id='mail'></caption>
<thead><tr><th>place<th>sender<th>number<th>value</thead><tbody id='messages'></tbody></table>
<p id='record'></p>
<p id='end'></p>
</main>
<script id='lines' type='text/plain'>
"#;

/// After the lines: the script, which shows one step after another.
pub const PAGE_SCRIPT: &str = r#"</script>
<script>
'use strict';
const by = id => document.getElementById(id);
const exact = line => JSON.parse(line.replace(/([[:,])([0-9]{16,})(?=[,}]|])/g, '$1"$2"'));
const all = by('lines').textContent.trim().split('\n').map(exact);
// A run of an algorithm that is a text has no images: its words are those of its steps, and 0 before.
const isLock = all[0].format === 'rmelab steps';
const start = isLock ? all[1] : { lock: [], data: [], width: 0 };
const steps = all.filter(line => line.step);
const verdict = all[all.length - 1].verdict ? all[all.length - 1] : null;
const groups = [...document.querySelectorAll('#drawing svg > g')];
const lifelines = groups.filter(group => group.getAttribute('transform').endsWith(' 80)') && group.querySelector('rect'));
const procs = lifelines.length;
const width = Number(start.width);

const KINDS = {
  open: 'Stores choosing := 1. The doorway begins, and with it comes the deed Begin.',
  peek: 'Loads the number of another process in the doorway. The greatest number that is read counts.',
  take: 'Stores number := the greatest number read, plus one. The doorway is complete, and the process is in the line: the deed Ready.',
  shut: 'Stores choosing := 0, so that others need not wait for a number. If none was taken, since the limit is reached, it is the deed Quit.',
  look: 'Loads choosing of another process, to pass it. If it is 1 the step is blocked, and the next one reads the same word.',
  weigh: 'Loads the number of another process, to pass it. If that process comes first the step is blocked, and the next one reads the same word.',
  mark: 'Stores inside := 1, which is the deed Enter, or inside := 0, the end of an exit. The first comes when all others are passed, the second after a drop.',
  drop: 'Stores number := 0. That is the deed Leave, or in a withdraw the deed Quit.',
  reread: 'Loads one of the process\'s own words at the start of a lock or a recover: choosing, number, inside. The restart table says what comes after the third.',
  get: 'Loads a data word while inside. The task that is under way names the word.',
  put: 'Stores a data word while inside. The task that is under way names the word and its value.',
  glance: 'Loads one word, also outside the section. It changes no word and no state of its process.',
};

const RESTART = [
  ['0,0,0', 'idle', 'open, then the doorway'],
  ['1,0,0', 'doorway unfinished', 'the doorway from its first peek'],
  ['1,k,0', 'number taken', 'shut, then waits'],
  ['0,k,0', 'waiting', 'waits from nothing'],
  ['0,k,1', 'inside', 'is inside again'],
  ['0,0,1', 'leaving', 'mark 0, then as 0,0,0'],
];
const restartOf = own => own[0] + ',' + (own[1] == 0 ? '0' : 'k') + ',' + own[2];

// The names of the data words, by their places.
const NAMES = new Map();
function nameWords() {
  const names = ['ruined', 'closed', 'count', 'armed', 'rec_at', 'rec_seq'];
  for (let k = 0; k < width; k++) names.push('rec_value[' + k + ']');
  for (let k = 0; k < 4; k++) names.push('board[' + k + ']');
  for (let p = 0; p < procs; p++) names.push('last[' + p + ']');
  for (let at = 0; names.length < start.data.length; at++) {
    names.push('sender[' + at + ']', 'seq[' + at + ']');
    for (let k = 0; k < width; k++) names.push('value[' + at + '][' + k + ']');
  }
  names.forEach((name, place) => NAMES.set(name, place));
}

// The phases of all processes after each step, and the stores of data words.
const phases = [];
const puts = [];
function gather() {
  let now = new Array(procs).fill(first());
  phases.push(now);
  steps.forEach((step, k) => {
    if (now[step.process] !== step.phase) {
      now = now.slice();
      now[step.process] = step.phase;
    }
    phases.push(now);
    if (isLock && step.access === 'store' && NAMES.has(step.word)) puts.push([k + 1, NAMES.get(step.word), step.value]);
  });
}
// The phase in which all processes begin, as the drawing has it at the top of their lifelines.
const first = () => lifelines[0].querySelector('rect').getAttribute('class');

function dataAfter(k) {
  const data = start.data.slice();
  for (const [step, place, value] of puts) {
    if (step > k) break;
    data[place] = value;
  }
  return data;
}

// The lines of the run step by step, as `rmelab replay --each` prints them.
function eventOf(step) {
  const own = !step.access || !isLock ? step.word : step.word.replace(/^(choosing|number|inside)\[(\d+)\]$/, (word, name, p) => p == step.process ? name : word);
  const access = !step.access ? '' : step.access === 'store' ? ' w ' + own + '=' + step.value : ' r ' + own + ' ' + step.value;
  const models = Object.entries(step.remote || {}).filter(([, remote]) => remote).map(([model]) => ' ' + model);
  const marks = models.length === 0 ? '' : ' remote' + models.join('');
  const reports = isLock ? [step.deed, step.answer].filter(line => line !== null) : step.report;
  return ['at ' + step.process + ' ' + step.phase + access + marks, ...reports].join('\n');
}

// ---- what is shown

function fill(body, rows, lit) {
  body.replaceChildren(...rows.map((cells, at) => {
    const row = document.createElement('tr');
    if (at === lit) row.setAttribute('aria-current', 'true');
    row.append(...cells.map(cell => Object.assign(document.createElement('td'), { textContent: cell })));
    return row;
  }));
}

function name(body, caption, names) {
  const table = by(body).parentElement;
  table.caption.textContent = caption;
  table.tHead.rows[0].replaceChildren(...names.map(text => Object.assign(document.createElement('th'), { textContent: text })));
}

// The tables of a run of an algorithm: the phases, and the shared words that its steps have named.
function nameTables() {
  if (isLock) return;
  name('words', 'Processes', ['process', 'phase']);
  name('messages', 'Shared words that a step has loaded or stored', ['word', 'value']);
  by('restart').parentElement.hidden = true;
  by('record').hidden = true;
}

function showAlgorithm(k) {
  fill(by('words'), phases[k].map((phase, q) => [q, phase]), k > 0 ? steps[k - 1].process : -1);
  const words = new Map();
  for (const step of steps.slice(0, k)) if (step.access) words.set(step.word, step.value);
  fill(by('messages'), [...words], -1);
}

function showWords(k, lock) {
  const p = k > 0 ? steps[k - 1].process : -1;
  fill(by('words'), lock.map((own, q) => [q, phases[k][q], ...own]), p);
  const now = lock.map(restartOf);
  const rows = RESTART.map(row => [...row, now.flatMap((words, q) => words === row[0] ? [q] : []).join(' ')]);
  fill(by('restart'), rows, p < 0 ? -1 : RESTART.findIndex(row => row[0] === now[p]));
}

function showMail(data) {
  by('mail').textContent = 'Mailbox: count ' + data[2] + ', closed ' + data[1] + ', ruined ' + data[0];
  const rows = [];
  const entries = 10 + width + procs;
  for (let at = 0; at < Math.min(Number(data[2]), 1000); at++) {
    const place = entries + at * (width + 2);
    rows.push([at, data[place], data[place + 1], data.slice(place + 2, place + 2 + width).join(' ')]);
  }
  fill(by('messages'), rows, -1);
  by('record').textContent = data[3] == 0 ? 'No append is half done: armed 0.'
    : 'An append is half done: armed ' + data[3] + ', place ' + data[4] + ', number ' + data[5] + ', value ' + data.slice(6, 6 + width).join(' ') + '.';
}

function showStep(k) {
  const step = steps[k - 1];
  by('title').textContent = step ? 'Step ' + k + ' of ' + steps.length : 'Before the first of ' + steps.length + ' steps';
  by('event').textContent = step ? eventOf(step) : '';
  by('kind').textContent = !step ? '' : !step.access ? 'A crash: the process loses its private memory. No word changes.'
    : isLock ? step.kind + ': ' + KINDS[step.kind] : '';
  const over = k === steps.length;
  by('end').textContent = !over ? '' : !verdict ? 'The next line of the schedule is refused.'
    : verdict.verdict === 'fine' ? 'The run ends here. verdict fine'
    : 'The run ends here. verdict against ' + verdict.fault + ' at ' + verdict.deed + (verdict.by === undefined ? '' : ' by ' + verdict.by + ' of ' + verdict.of);
}

// ---- the drawing

// The row of the drawing that shows each step: a blocked step and its repetitions are one row. A row without a mark is one more line
// of what the step before it reports. Of a long drawing only the rows
// near the one shown are in the page, with the last row of each process before them that begins a phase. Until they are found
// the drawing is not shown, so that the browser never has to lay out all of it.
const NEAR = 64;
const rowOf = [0];
const begun = [];
const rows = [];
function findRows() {
  const last = [];
  rows.push(...groups.slice(groups.indexOf(lifelines[procs - 1]) + 1));
  rows.forEach((group, at) => {
    const again = /×([0-9]+)$/.exec(group.firstElementChild.textContent.split('\n')[0]);
    const marked = [...group.children].some(part => (part.tagName === 'circle' && part.getAttribute('r') === '3') || part.getAttribute('class') === 'crash');
    for (let times = !marked ? 0 : again ? Number(again[1]) : 1; times > 0; times--) rowOf.push(at + 1);
    if (at % NEAR === 0) begun.push(last.filter(group => group));
    if (group.children[1].tagName === 'rect') last[steps[rowOf.length - 2].process] = group;
  });
}

const near = document.createElementNS('http://www.w3.org/2000/svg', 'g');
let part = -1;
function showPart(row) {
  const to = Math.max(0, Math.min(begun.length - 1, Math.floor((row - 1) / NEAR)));
  if (to === part || rows.length === 0) return;
  part = to;
  const from = Math.max(0, to - 1);
  near.replaceChildren(...begun[from], ...rows.slice(from * NEAR, (to + 2) * NEAR));
}

const svg = document.querySelector('#drawing svg');
const marker = document.createElementNS('http://www.w3.org/2000/svg', 'path');
function makeMarker() {
  marker.setAttribute('fill', 'none');
  marker.setAttribute('stroke', '#000');
  marker.setAttribute('stroke-width', '2');
  marker.setAttribute('d', 'M2 -8l8 8l-8 8zM12 -8H' + (svg.width.baseVal.value - 4) + 'V8H12z');
  if (rows.length > 0) rows[0].before(near);
  showPart(1);
  rows.slice(2 * NEAR).forEach(group => group.isConnected && group.parentNode === svg && group.remove());
  svg.append(marker);
}

function showRow(k) {
  const y = k > 0 ? rowOf[k] * 18 + 82 : 80;
  showPart(rowOf[k]);
  marker.setAttribute('transform', 'translate(0 ' + y + ')');
  by('drawing').scrollTop = y - by('drawing').clientHeight / 2;
}

// ---- moving

let shown = -1;
function show(k) {
  const to = Math.max(0, Math.min(steps.length, k));
  if (to === shown) return;
  shown = to;
  by('place').value = to;
  showStep(to);
  if (isLock) {
    showWords(to, to > 0 ? steps[to - 1].lock : start.lock);
    showMail(dataAfter(to));
  } else {
    showAlgorithm(to);
  }
  showRow(to);
}

by('drawing').addEventListener('scroll', () => showPart(Math.round((by('drawing').scrollTop + by('drawing').clientHeight / 2 - 82) / 18)));

const KEYS = { ArrowLeft: () => shown - 1, ArrowRight: () => shown + 1, Home: () => 0, End: () => steps.length };
addEventListener('keydown', event => {
  const to = KEYS[event.key];
  if (!to || event.ctrlKey || event.altKey || event.metaKey) return;
  event.preventDefault();
  show(to());
});
by('place').addEventListener('input', () => show(Number(by('place').value)));
by('back').addEventListener('click', () => show(shown - 1));
by('on').addEventListener('click', () => show(shown + 1));
addEventListener('hashchange', () => show(Number(location.hash.slice(1))));

nameTables();
nameWords();
gather();
findRows();
makeMarker();
by('place').max = steps.length;
document.documentElement.className = '';
show(Number(location.hash.slice(1)) || 0);
</script>
</body>
</html>
"#;
