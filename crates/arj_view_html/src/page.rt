// The page around what is told of a run: its style, and the script that draws. The script reads what is told as text, and shows
// it as text.

/// What stands before what is told.
pub const FRONT: &[u8] = b"<!DOCTYPE html>
<html lang='en'>
<head>
<meta charset='utf-8'>
<title>A run of arjuna</title>
<style>
  body { margin: 0; font: 13px/1.4 system-ui, sans-serif; color: #222; background: #fff; }
  main { display: grid; grid-template-columns: minmax(620px, 1fr) minmax(430px, 40%); grid-template-rows: auto 1fr; height: 100vh; }
  header { grid-column: 1 / 3; padding: 6px 12px; border-bottom: 1px solid #ccc; background: #f6f7f9; }
  header input { width: calc(100% - 420px); vertical-align: middle; }
  header button { font: inherit; padding: 1px 8px; }
  #where { display: inline-block; width: 210px; }
  #what { font: 13px ui-monospace, monospace; min-height: 18px; white-space: nowrap; overflow: hidden; }
  #chart { position: relative; overflow: auto; border-right: 1px solid #ccc; }
  #chart svg { position: absolute; left: 0; top: 0; }
  #heads { position: sticky; top: 0; z-index: 2; background: #fff; border-bottom: 1px solid #ddd; height: 24px; }
  #side { overflow: auto; padding: 4px 12px 24px; }
  h2 { font-size: 13px; margin: 14px 0 4px; }
  table { border-collapse: collapse; width: 100%; }
  th, td { border: 1px solid #ddd; padding: 2px 6px; text-align: left; vertical-align: top; font-weight: normal; overflow-wrap: anywhere; }
  th { background: #f6f7f9; min-width: 150px; }
  td b { font-weight: 600; }
  .doubt { background: #fff0cc; }
  .out { background: #eee; color: #777; }
  .down { background: #fbe3e3; color: #922; }
  .small { color: #777; font-size: 11px; }
  svg text { font: 11px ui-monospace, monospace; }
</style>
</head>
<body>
<main>
<header>
  <div>
    <button id='back' title='the event before'>&#9664;</button>
    <input id='place' type='range' min='0' value='0'>
    <button id='next' title='the event behind'>&#9654;</button>
    <span id='where'></span>
    <button id='fold'>unfold all</button>
  </div>
  <div id='what'></div>
</header>
<div id='chart'><div id='heads'></div><div id='rows'></div></div>
<div id='side'></div>
</main>
<noscript>This page draws by a script of its own, which stands in it. Below is what it draws.</noscript>
<pre id='run' hidden>
";

/// What stands behind it.
pub const BACK: &[u8] = b"</pre>
<script>
'use strict';
// What was told: one line of text for each thing. All of it is shown as text alone, never as markup.
const feed = String.fromCharCode(10);
const told = document.getElementById('run').textContent.split(feed).filter(line => line !== '');
const script = [];
const lines = [];
const nodes = { count: 1 };
const LONG = 40;
const objects = [];
const names = new Map();
const homes = new Map();
const frames = new Map();
const classes = new Map();

// What changes, each with the place of the line behind which it stands: 0 before the first.
const tables = new Map();
const doubts = [];
const states = new Map();
const pendings = [];
let unreadable = null;
const copies = new Map();
const entries = new Map();
const leaving = new Map();
const lives = new Map();

// How a frame ends, in words.
const ends = { got: 'comes', void: 'comes, without effect', dropped: 'is lost' };
const push = (map, key, value) => { if (!map.has(key)) map.set(key, []); map.get(key).push(value); };
// The last of these at or before a place.
const last = (list, place) => {
  if (!list) return null;
  let low = 0;
  let high = list.length;
  while (low < high) {
    const middle = (low + high) >> 1;
    if (list[middle].at <= place) low = middle + 1; else high = middle;
  }
  return low === 0 ? null : list[low - 1];
};

// A line of the script: what it asks for is nothing, that frames are delivered until none is left, or another event.
function readScript(asked, text) {
  const words = text.split(' ');
  if (words[0] === 'nodes' && asked === 'script') nodes.count = Number(words[1]);
  if (words[0] === 'object' && asked === 'script') {
    objects.push({ x: words[1], stores: words[words.indexOf('stores') + 1].split(',') });
  }
  script.push({ text, asked, under: [], folded: false });
}

function readLine(text) {
  const words = text.split(' ');
  const at = lines.length + 1;
  const line = { at, event: Number(words[0]), words: words.slice(1), text };
  lines.push(line);
  const w = line.words;
  if (w[0] === 'began') { names.set(w[3], w[1]); homes.set(w[1], Number(w[3].split('.')[0])); }
  if (w[0] === 'sent') frames.set(w[1], { from: Number(w[2]), to: Number(w[3]), kind: w[4], at, ends: [] });
  if (w[0] in ends && frames.has(w[1])) frames.get(w[1]).ends.push({ at, kind: w[0] });
  if (w[0] === 'halted') push(lives, w[1], { at, up: false });
  if (w[0] === 'up') push(lives, w[1], { at, up: true, inc: w[2] });
  if (w[0] === 'copy') push(copies, w[1] + ' ' + w[2], { at, version: w[3], writer: w[4], payload: w[5] });
  if (w[0] === 'excluded') push(leaving, w[3] + ' ' + w[2], { at, who: w[1] });
}

// Locks stand three words each: on what, in which mode, for whom.
function readTable(words) {
  const rows = [];
  for (let i = 2; i + 2 < words.length; i += 3) {
    rows.push({ on: words[i], mode: words[i + 1], path: words[i + 2].split(',').filter(uid => uid !== '') });
  }
  push(tables, words[1], { at: lines.length, rows });
}

function readDoubts(words) {
  const list = [];
  for (let i = 1; i + 2 < words.length; i += 3) list.push({ node: words[i], who: words[i + 1], role: words[i + 2] });
  doubts.push({ at: lines.length, list });
}

// The entry of an object, once a store of it was excluded or included: its version, its writer, and the stores that are listed.
function readListed(words) {
  const stores = words[4].split(',').filter(store => store !== '');
  push(entries, words[1], { at: lines.length, version: words[2], writer: words[3], stores });
}

// The last state of an object, from the line of this number on: its version, its writer, and its value.
function readState(words) {
  const state = { at: Number(words[1]), version: words[3], writer: words[4], value: words.slice(5).join(' ') };
  push(states, words[2], state);
}

// What nodes may hold, prepared, from the line of this number on, four words each: the object, the node, for whom, and whether a line
// said so.
function readPending(words) {
  const list = [];
  for (let i = 2; i + 3 < words.length; i += 4) {
    list.push({ x: words[i], node: words[i + 1], who: words[i + 2], said: words[i + 3] === 'prepared' });
  }
  pendings.push({ at: Number(words[1]), list });
}

for (const text of told) {
  const words = text.split(' ');
  const rest = text.slice(words[0].length + 1);
  if (['script', 'event', 'settle'].includes(words[0])) readScript(words[0], rest);
  else if (words[0] === 'line') readLine(rest);
  else if (words[0] === 'locks') readTable(words);
  else if (words[0] === 'doubts') readDoubts(words);
  else if (words[0] === 'listed') readListed(words);
  else if (words[0] === 'state') readState(words);
  else if (words[0] === 'pending') readPending(words);
  else if (words[0] === 'unreadable') unreadable = Number(words[1]);
}

// Events are counted. Lines of the journal stand under the event whose number they have.
function arrange() {
  const byEvent = new Map();
  for (const line of script) if (line.asked !== 'script') { line.event = byEvent.size + 1; byEvent.set(line.event, line); }
  let under = script[script.length - 1];
  for (const line of lines) {
    if (byEvent.has(line.event)) under = byEvent.get(line.event);
    under.under.push(line);
    line.under = under;
  }
  for (const line of script) line.folded = line.asked === 'settle' && line.under.length > LONG;
}
arrange();

// A word of a line, as it is read: an action by its label, an object by its number.
function shown(word) {
  if (names.has(word)) return names.get(word);
  const parts = /^0.([01]).([0-9]+)$/.exec(word);
  if (parts && word.split('.').length === 3 && parts[2] !== '0') return (parts[1] === '1' ? 'entry ' : 'object ') + parts[2];
  return word;
}

// A text with long words cut short, as the digits of a register.
const short = text => text.split(' ').map(word => (word.length > 60 ? word.slice(0, 56) + '...' : word)).join(' ');

function sentence(line) {
  const w = line.words;
  if (w[0] in ends && frames.has(w[1])) return frames.get(w[1]).kind + ' ' + w[1] + ' ' + ends[w[0]];
  if (w[0] === 'sent') return w[4] + ' ' + w[1] + ' goes to node ' + w[3];
  return short(w.map((word, i) => (i === 0 ? word : shown(word))).join(' '));
}

// ---- drawing

const space = 'http://www.w3.org/2000/svg';
function draw(kind, attributes, text) {
  const element = document.createElementNS(space, kind);
  for (const name in attributes) element.setAttribute(name, attributes[name]);
  if (text !== undefined) element.textContent = text;
  return element;
}
function make(kind, className, text) {
  const element = document.createElement(kind);
  if (className) element.className = className;
  if (text !== undefined) element.textContent = text;
  return element;
}

const HIGH = 17;
const LEFT = 40;
const WIDE = nodes.count > 8 ? 64 : nodes.count > 5 ? 84 : 110;
const right = LEFT + nodes.count * WIDE;
const column = node => LEFT + (Number(node) - 1) * WIDE + WIDE / 2;
const chart = document.getElementById('chart');
const rowsBox = document.getElementById('rows');
const slider = document.getElementById('place');
const svg = draw('svg', {});
rowsBox.append(svg);
let rows = [];
let place = 0;

// One row for each line of the script, and one for each line of the journal that isn't folded.
function layOut() {
  rows = [];
  for (const line of script) {
    line.row = rows.length;
    rows.push({ script: line });
    if (line.folded) {
      rows.push({ folded: line });
      for (const below of line.under) below.row = rows.length - 1;
    } else {
      for (const below of line.under) { below.row = rows.length; rows.push({ line: below }); }
    }
  }
  rowsBox.style.height = (rows.length + 2) * HIGH + 'px';
  rowsBox.style.width = right + 640 + 'px';
  svg.setAttribute('width', right + 640);
}
const rowOf = at => (at === 0 ? 0 : lines[at - 1].row);
const middle = row => row * HIGH + HIGH / 2;

function marker(id, shape, color) {
  const m = draw('marker', { id, markerWidth: 9, markerHeight: 9, refX: 8, refY: 4, orient: 'auto' });
  m.append(draw('path', { d: shape, fill: color === 'none' ? 'white' : color, stroke: color === 'none' ? '#555' : color }));
  return m;
}

// A node's life between two places of the chart: a line where it is up, a red band where it is down.
function drawSpan(group, node, up, from, to) {
  if (to <= from) return;
  const x = column(node);
  if (up) group.append(draw('line', { x1: x, x2: x, y1: from, y2: to, stroke: '#9aa4b2', 'stroke-width': 2 }));
  else group.append(draw('rect', { x: x - 9, y: from, width: 18, height: to - from, fill: '#fbdcdc' }));
}
function drawLife(group, node, from, to) {
  let up = true;
  let start = 0;
  for (const turn of lives.get(String(node)) || []) {
    const y = middle(rowOf(turn.at));
    drawSpan(group, node, up, Math.max(start, from), Math.min(y, to));
    start = y;
    up = turn.up;
  }
  drawSpan(group, node, up, Math.max(start, from), Math.min(middle(rows.length), to));
}

// How an end of a frame is drawn: its color, and the head of its arrow. What comes again has another color.
function look(end, again) {
  if (end.kind === 'dropped') return { color: '#c62828', head: 'url(#lost)', dashes: '4 3' };
  if (end.kind === 'void') return { color: '#777777', head: 'url(#hollow)', dashes: '4 3' };
  if (again) return { color: '#8e5bd0', head: 'url(#again)', dashes: '4 3' };
  return { color: '#1b6ec2', head: 'url(#came)', dashes: '' };
}

// Words on the chart, readable over lines.
function drawWords(group, attributes, text) {
  const words = draw('text', attributes, text);
  words.setAttribute('style', 'paint-order: stroke; stroke: white; stroke-width: 3px');
  group.append(words);
}

// A frame: from the row in which it goes to the one in which it comes or is lost. One that comes again is drawn again.
function drawFrame(group, frame, first, beyond) {
  const a = rowOf(frame.at);
  frame.ends.forEach((end, i) => {
    const b = rowOf(end.at);
    if (b < first || a > beyond || a === b) return;
    const it = look(end, i > 0);
    const part = end.kind === 'dropped' ? 0.6 : 1;
    const x1 = frame.from === 0 ? 4 : column(frame.from);
    const y1 = middle(a);
    const x2 = x1 + (column(frame.to) - x1) * part;
    const y2 = y1 + (middle(b) - y1) * part;
    group.append(draw('line', { x1, y1, x2, y2, stroke: it.color, 'marker-end': it.head, 'stroke-dasharray': it.dashes }));
    const words = frame.kind + (end.kind === 'dropped' ? ' lost' : i > 0 ? ' again' : '');
    const place = { x: x1 + (x2 - x1) * 0.42, y: y1 + (y2 - y1) * 0.42 - 2, fill: it.color, 'text-anchor': 'middle' };
    drawWords(group, place, words);
  });
}

const marks = {
  began: ['B', '#555'], ok: ['ok', '#2e7d32'], includes: ['ok', '#2e7d32'], conflict: ['!', '#c62828'], lost: ['?', '#c62828'],
  changed: ['?', '#c62828'], committing: ['c', '#555'], committed: ['C', '#2e7d32'], ended: ['C', '#2e7d32'], aborted: ['A', '#c62828'],
  gaveup: ['g', '#c62828'], excluded: ['x', '#c62828'], granted: ['+', '#6a4fb3'], lowered: ['-', '#6a4fb3'], told: ['-', '#6a4fb3'],
  bound: ['b', '#777'], active: ['a', '#777'], prepared: ['P', '#b26a00'], done: ['D', '#2e7d32'], halted: ['X', '#c62828'],
  up: ['U', '#2e7d32'], armed: ['!', '#c62828'], recovered: ['C', '#2e7d32'], copy: ['=', '#777'], entry: ['=', '#777'],
};
const atNode = ['granted', 'lowered', 'active', 'told', 'prepared', 'done', 'halted', 'up', 'armed', 'recovered', 'copy'];
// The node at which a line stands, 0 where it has none.
function homeOf(line) {
  const w = line.words;
  if (atNode.includes(w[0])) return Number(w[1]);
  if (w[0] === 'bound' || w[0] === 'entry') return 1;
  return homes.get(w[1]) || 0;
}

function drawMark(group, row, line) {
  const mark = marks[line.words[0]];
  const home = homeOf(line);
  if (!mark || home === 0 || home > nodes.count) return;
  const wide = mark[0].length > 1 ? 18 : 13;
  const box = { x: column(home) - wide / 2, y: row * HIGH + 2, width: wide, height: 13, rx: 3, fill: 'white', stroke: mark[1] };
  const words = { x: column(home), y: row * HIGH + 12, fill: mark[1], 'text-anchor': 'middle', 'font-weight': 'bold' };
  group.append(draw('rect', box), draw('text', words, mark[0]));
}

// A row: its background, its text, and what a click on it does.
function drawRow(group, row) {
  const it = rows[row];
  const y = row * HIGH;
  if (it.script) {
    const quiet = it.script.event === undefined;
    group.append(draw('rect', { x: 0, y, width: right + 640, height: HIGH, fill: quiet ? '#fafafa' : '#eaf1fb' }));
    const text = (quiet ? '' : it.script.event + '  ') + short(it.script.text);
    drawWords(group, { x: 6, y: y + 12, fill: quiet ? '#888' : '#174a8c', 'font-weight': 'bold' }, text);
    return;
  }
  if (it.folded) {
    const count = it.folded.under.length;
    const bar = draw('rect', { x: LEFT, y: y + 2, width: right - LEFT, height: HIGH - 4, fill: '#f1ecfa', stroke: '#cbbdea' });
    group.append(bar);
    const text = count + ' lines are folded: ' + summary(it.folded);
    group.append(draw('text', { x: LEFT + 6, y: y + 12, fill: '#5a4394' }, text));
    return;
  }
  group.append(draw('text', { x: right + 8, y: y + 12, fill: it.line.at <= place ? '#222' : '#999' }, sentence(it.line)));
}

// How many lines of which kind a block has.
function summary(block) {
  const counts = new Map();
  for (const line of block.under) counts.set(line.words[0], (counts.get(line.words[0]) || 0) + 1);
  return [...counts].sort((a, b) => b[1] - a[1]).slice(0, 6).map(pair => pair[1] + ' ' + pair[0]).join(', ');
}

// Draws what is in sight, and a little more.
function drawChart() {
  const first = Math.max(0, Math.floor(chart.scrollTop / HIGH) - 10);
  const beyond = Math.min(rows.length, Math.ceil((chart.scrollTop + chart.clientHeight) / HIGH) + 10);
  svg.replaceChildren();
  svg.setAttribute('height', (beyond - first) * HIGH);
  svg.style.top = first * HIGH + 'px';
  const defs = draw('defs', {});
  defs.append(marker('came', 'M0,0 L8,4 L0,8 z', '#1b6ec2'), marker('again', 'M0,0 L8,4 L0,8 z', '#8e5bd0'));
  defs.append(marker('hollow', 'M0,0 L8,4 L0,8 z', 'none'), marker('lost', 'M0,0 L8,8 M8,0 L0,8', '#c62828'));
  const group = draw('g', { transform: 'translate(0,' + -first * HIGH + ')' });
  svg.append(defs, group);
  for (let row = first; row < beyond; row++) drawRow(group, row);
  for (let node = 1; node <= nodes.count; node++) drawLife(group, node, first * HIGH, beyond * HIGH);
  for (const frame of frames.values()) drawFrame(group, frame, first, beyond);
  for (let row = first; row < beyond; row++) if (rows[row].line) drawMark(group, row, rows[row].line);
  const here = rowOf(place);
  const band = { x: 0, y: here * HIGH, width: right + 640, height: HIGH, fill: '#ffd54f', 'fill-opacity': 0.35 };
  if (place > 0) group.append(draw('rect', band));
}

// ---- what stands at the place of the slider

const isUp = node => { const turn = last(lives.get(String(node)), place); return turn === null || turn.up; };
const doubtsNow = () => { const it = last(doubts, place); return it ? it.list : []; };
const pendingAt = (x, node) => { const it = last(pendings, place); return it ? it.list.filter(one => one.x === x && one.node === node) : []; };
const listedNow = object => { const it = last(entries.get(object.x), place); return it ? it.stores : object.stores; };

function storeCell(object, store, value) {
  const cell = make('td');
  cell.append(make('b', '', 'store ' + store), document.createElement('br'));
  const copy = last(copies.get(store + ' ' + object.x), place);
  const whose = said => pendingAt(object.x, store).filter(one => one.said === said).map(one => shown(one.who)).join(', ');
  const sure = whose(true);
  const perhaps = whose(false);
  const isListed = listedNow(object).includes(store);
  if (!isListed) { cell.className = 'out'; cell.append(make('div', '', 'excluded')); }
  if (sure + perhaps !== '') cell.className = 'doubt';
  if (sure !== '') cell.append(make('div', '', 'in doubt of ' + sure + ': the state before it, or behind it'));
  if (perhaps !== '') cell.append(make('div', '', 'perhaps in doubt of ' + perhaps + ': it stopped as it may have prepared'));
  if (sure + perhaps === '' && isListed) cell.append(short(value));
  const out = last(leaving.get(store + ' ' + object.x), place);
  const since = last(entries.get(object.x), place);
  if (out && (!since || since.at < out.at)) cell.append(make('div', 'small', out.who + ' sets out to exclude it, line ' + out.at));
  if (!isUp(store)) { cell.className = 'down'; cell.append(make('div', '', 'node is down')); }
  if (copy) {
    const digits = copy.payload === '-' ? '' : ', bytes ' + short(copy.payload);
    cell.append(make('div', 'small', 'shown by line ' + copy.at + ': version ' + copy.version + digits));
  }
  return cell;
}

function storesTable() {
  const table = make('table');
  for (const object of objects.slice(0, 200)) {
    const row = make('tr');
    const state = last(states.get(object.x), place);
    const value = 'version ' + state.version + ': ' + state.value;
    const head = make('th');
    head.append(make('b', '', 'object ' + object.x), document.createElement('br'), value);
    if (state.at > 0) head.append(make('div', 'small', 'by ' + shown(state.writer) + ', line ' + state.at));
    const entry = last(entries.get(object.x), place);
    if (entry) head.append(make('div', 'small', 'entry: version ' + entry.version + ', by ' + shown(entry.writer) + ', line ' + entry.at));
    row.append(head);
    const all = [...object.stores];
    for (const store of listedNow(object)) if (!all.includes(store)) all.push(store);
    for (const store of all) row.append(storeCell(object, store, value));
    table.append(row);
  }
  return table;
}

const lockText = row => shown(row.on) + ': ' + row.mode + ', ' + row.path.map(shown).join(' / ');

function nodesTable() {
  const table = make('table');
  for (let node = 1; node <= nodes.count; node++) {
    const row = make('tr');
    const turn = last(lives.get(String(node)), place);
    const life = isUp(node) ? (turn ? 'up, incarnation ' + turn.inc : 'up') : 'down';
    const head = make('th', isUp(node) ? '' : 'down');
    head.append(make('b', '', 'node ' + node), document.createElement('br'), life);
    const locks = make('td');
    const held = last(tables.get(String(node)), place);
    for (const lock of held ? held.rows : []) locks.append(make('div', '', lockText(lock)));
    const prepared = doubtsNow().filter(doubt => doubt.node === String(node));
    const doubt = make('td', prepared.length > 0 ? 'doubt' : '');
    for (const it of prepared) doubt.append(make('div', '', shown(it.who) + (it.role === 'names' ? ' (entries)' : '')));
    row.append(head, locks, doubt);
    table.append(row);
  }
  const heads = make('tr');
  for (const text of ['node', 'locks', 'in doubt of']) heads.append(make('th', '', text));
  table.prepend(heads);
  return table;
}

// The times of locks: from the line behind which a lock stands in its node's table to that behind which it doesn't.
const bars = new Map();
function readBars() {
  for (const [node, list] of tables) {
    const open = new Map();
    for (const turn of list) {
      const now = new Map(turn.rows.map(row => [row.on + ' ' + row.path[row.path.length - 1], row]));
      for (const [key, bar] of open) {
        const row = now.get(key);
        if (row && row.mode === bar.mode) continue;
        bar.to = turn.at;
        open.delete(key);
      }
      for (const [key, row] of now) {
        if (open.has(key)) continue;
        const bar = { node, mode: row.mode, who: row.path[row.path.length - 1], from: turn.at, to: lines.length + 1 };
        open.set(key, bar);
        push(bars, row.on, bar);
      }
    }
  }
  for (const list of bars.values()) {
    const ends = [];
    list.sort((a, b) => a.node - b.node || a.from - b.from);
    let node = null;
    let base = 0;
    for (const bar of list) {
      if (bar.node !== node) { base += ends.length; ends.length = 0; node = bar.node; }
      let lane = ends.findIndex(end => end <= bar.from);
      if (lane < 0) { lane = ends.length; ends.push(0); }
      ends[lane] = bar.to;
      bar.lane = base + lane;
    }
    list.lanes = base + ends.length;
  }
}
readBars();

const modes = { read: '#9cc5f0', write: '#f2a65a', exclude: '#d9a3e0' };
const SPAN = 400;
function timeline(on, list, from, to) {
  const wide = 400;
  const high = 15;
  const x = at => Math.max(0, Math.min(wide, (wide * (at - from)) / Math.max(1, to - from)));
  const picture = draw('svg', { width: wide + 2, height: list.lanes * high + 2, style: 'background: #fafafa; border: 1px solid #eee' });
  for (const bar of list) {
    if (bar.to < from || bar.from > to) continue;
    const y = bar.lane * high + 1;
    const length = Math.max(1.5, x(bar.to) - x(bar.from));
    const box = draw('rect', { x: x(bar.from), y, width: length, height: high - 2, fill: modes[bar.mode] });
    const times = ', lines ' + bar.from + ' to ' + (bar.to - 1);
    box.append(draw('title', {}, shown(bar.who) + ': ' + bar.mode + ' at node ' + bar.node + times));
    picture.append(box);
    if (length > 50) picture.append(draw('text', { x: x(bar.from) + 3, y: y + 10 }, shown(bar.who) + ' @' + bar.node));
  }
  picture.append(draw('line', { x1: x(place), x2: x(place), y1: 0, y2: list.lanes * high + 2, stroke: '#d32f2f' }));
  const box = make('div');
  box.append(make('div', 'small', shown(on)), picture);
  return box;
}

function timelines() {
  const box = make('div');
  const from = lines.length <= SPAN ? 0 : Math.max(0, Math.min(lines.length - SPAN, place - SPAN / 2));
  const to = Math.min(lines.length, from + SPAN);
  box.append(make('div', 'small', 'lines ' + from + ' to ' + to + '; blue read, orange write, violet exclude; @ the node'));
  const number = uid => Number(uid.split('.')[2]) * 2 + Number(uid.split('.')[1]);
  for (const on of [...bars.keys()].sort((a, b) => number(a) - number(b))) {
    if (bars.get(on).some(bar => bar.to >= from && bar.from <= to)) box.append(timeline(on, bars.get(on), from, to));
  }
  return box;
}

function drawSide() {
  const side = document.getElementById('side');
  const kept = side.scrollTop;
  side.replaceChildren();
  side.append(make('h2', '', 'Stores'));
  const broken = unreadable !== null && place >= unreadable;
  if (broken) side.append(make('div', 'down', 'The journal cannot be read as a run from its line ' + unreadable + ' on.'));
  side.append(make('div', 'small', 'last states; a listed store holds them, but for what is in doubt'));
  side.append(storesTable(), make('h2', '', 'Nodes'), nodesTable(), make('h2', '', 'Locks in time'), timelines());
  side.scrollTop = kept;
}

// ---- controls

function go(to, follow) {
  place = Math.max(0, Math.min(lines.length, to));
  slider.value = place;
  const line = place === 0 ? null : lines[place - 1];
  const event = line ? ', event ' + line.event : '';
  document.getElementById('where').textContent = 'line ' + place + ' of ' + lines.length + event;
  const what = line ? short(line.under.text) + ' : ' + sentence(line) : 'before the first line';
  document.getElementById('what').textContent = what;
  if (follow) {
    const y = rowOf(place) * HIGH;
    if (y < chart.scrollTop + 60 || y > chart.scrollTop + chart.clientHeight - 60) chart.scrollTop = y - chart.clientHeight / 2;
  }
  drawChart();
  drawSide();
}
const eventOf = at => (at === 0 ? 0 : lines[at - 1].event);
function nextEvent() {
  let to = place;
  if (to < lines.length) to += 1;
  while (to < lines.length && eventOf(to + 1) === eventOf(to)) to += 1;
  go(to, true);
}
function eventBefore() {
  let to = place;
  const event = eventOf(to);
  while (to > 0 && eventOf(to) === event) to -= 1;
  go(to, true);
}

function drawHeads() {
  const heads = draw('svg', { width: right + 640, height: 24 });
  for (let node = 1; node <= nodes.count; node++) {
    heads.append(draw('text', { x: column(node), y: 16, 'text-anchor': 'middle', 'font-weight': 'bold' }, 'node ' + node));
  }
  heads.append(draw('text', { x: right + 8, y: 16, fill: '#777' }, 'dashed: without effect, again, or lost; red: the node is down'));
  document.getElementById('heads').append(heads);
}

slider.max = lines.length;
slider.addEventListener('input', () => go(Number(slider.value), true));
document.getElementById('next').addEventListener('click', nextEvent);
document.getElementById('back').addEventListener('click', eventBefore);
document.addEventListener('keydown', event => {
  if (event.target === slider) return;
  if (event.key === 'ArrowRight' || event.key === 'j') go(place + 1, true);
  if (event.key === 'ArrowLeft' || event.key === 'k') go(place - 1, true);
});
rowsBox.addEventListener('click', event => {
  const row = Math.floor((event.clientY - rowsBox.getBoundingClientRect().top) / HIGH);
  const it = rows[row];
  if (!it) return;
  if (it.folded || it.script) {
    const line = it.folded || it.script;
    if (line.under.length > 1) { line.folded = !line.folded; layOut(); drawChart(); }
    return;
  }
  go(it.line.at, false);
});
document.getElementById('fold').addEventListener('click', event => {
  const any = script.some(line => line.folded);
  for (const line of script) line.folded = !any && line.under.length > 1;
  event.target.textContent = any ? 'fold all' : 'unfold all';
  layOut();
  go(place, true);
});
chart.addEventListener('scroll', () => requestAnimationFrame(drawChart));
window.addEventListener('resize', drawChart);
drawHeads();
layOut();
const asked = Number(location.hash.slice(1));
go(location.hash.length > 1 && asked >= 0 ? asked : lines.length, true);
</script>
</body>
</html>
";
