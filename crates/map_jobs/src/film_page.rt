//! The page of a film, without the film's data: one file with its styles and its script, which loads no other.

/// What stands before the data.
pub(crate) const HEAD: &str = r##"<!doctype html>
<html lang="en">
<head>
<meta charset="utf-8">
<meta name="viewport" content="width=device-width, initial-scale=1">
<title>The film of a script</title>
<style>
:root {
  color-scheme: light dark;
  --ground: light-dark(#fcfcfa, #171715);
  --raised: light-dark(#ffffff, #21211e);
  --ink: light-dark(#1b1b19, #ecece6);
  --faint: light-dark(#5c5c56, #a8a8a0);
  --edge: light-dark(#b4b4ac, #55554f);
  --now: light-dark(#fff0c2, #4a3d12);
  --mark: light-dark(#a83c00, #ffb070);
  --bad: light-dark(#c40000, #ff7a7a);
}
* { box-sizing: border-box; }
body { margin: 0; background: var(--ground); color: var(--ink); font: 15px/1.45 system-ui, sans-serif; }
code, .mono, .square, .lazy, #lines { font-family: "DejaVu Sans Mono", Menlo, Consolas, monospace; }
header { position: sticky; top: 0; z-index: 2; display: flex; flex-wrap: wrap; gap: .5rem 1rem; align-items: center;
  padding: .5rem 1rem; background: var(--raised); border-bottom: 1px solid var(--edge); }
h1 { font-size: 1.05rem; margin: 0; }
h2 { font-size: .95rem; margin: 1.1rem 0 .4rem; }
button { font: inherit; min-width: 2.4rem; padding: .2rem .6rem; color: inherit; background: var(--ground);
  border: 1px solid var(--edge); border-radius: 5px; cursor: pointer; }
#place { flex: 1; min-width: 10rem; }
:focus-visible { outline: 3px solid var(--mark); outline-offset: 2px; }
main { display: grid; grid-template-columns: minmax(20rem, 30rem) 1fr; gap: 1.2rem; padding: 0 1rem 2rem; }
#side { position: sticky; top: 3.6rem; height: calc(100vh - 4.2rem); display: flex; flex-direction: column; }
#script { position: relative; flex: 3; min-height: 0; overflow: auto; }
#step-changes { flex: 2; min-height: 0; overflow: auto; border-top: 1px solid var(--edge); }
@media (max-width: 60rem) {
  main { grid-template-columns: 1fr; }
  #side { position: static; height: auto; }
  #script { max-height: 40vh; }
  #step-changes { max-height: 30vh; }
}
#lines { list-style: none; margin: 0; padding: 0; font-size: .8rem; }
#lines li { display: flex; gap: .6rem; padding: .08rem .4rem; border-left: 4px solid transparent; }
#lines .number { flex: none; width: 2.6rem; text-align: right; color: var(--faint); }
#lines .text { flex: 1; white-space: pre-wrap; overflow-wrap: anywhere; }
#lines .reply { flex: none; color: var(--faint); }
#lines a { color: inherit; text-decoration: none; }
#lines a:hover { text-decoration: underline; }
#lines .skipped { color: var(--faint); }
#lines .later .reply { visibility: hidden; }
#lines .refused:not(.later) .text { text-decoration: line-through; text-decoration-color: var(--bad); }
#lines .refused:not(.later) .reply { color: var(--bad); font-weight: bold; }
#lines [aria-current] { background: var(--now); border-left-color: var(--mark); font-weight: bold; }
#says { margin: .2rem 0; padding: .6rem .8rem; min-height: 3.4rem; background: var(--raised);
  border: 1px solid var(--edge); border-left: 5px solid var(--mark); border-radius: 5px; }
#says.refused { border-left-color: var(--bad); }
#frames { display: grid; grid-template-columns: repeat(auto-fill, 3.3rem); gap: 5px; margin: 0; padding: 0; list-style: none; }
#frames.many { grid-template-columns: repeat(auto-fill, 2.6rem); gap: 4px; }
.many .square { height: 2.6rem; padding-top: .75rem; font-size: .78rem; }
.many .table { padding-top: .45rem; }
.many .table .at { top: -2px; }
.many .square .who { line-height: .66rem; }
.square { position: relative; height: 3.3rem; padding-top: 1.05rem; text-align: center; font-size: .85rem;
  border: 1px solid var(--edge); border-radius: 4px; background: var(--raised); }
.square, .process { scroll-margin: 4rem 0 1rem; }
.square::after, .process::after { content: ""; position: absolute; left: 3px; bottom: 2px; height: 6px; width: calc(4px * var(--ticks));
  background: repeating-linear-gradient(90deg, currentColor 0 2px, transparent 2px 4px); }
.square .at { position: absolute; left: 3px; top: 1px; font-size: .62rem; color: inherit; opacity: .85; }
.square .how { position: absolute; right: 2px; top: -1px; font-size: .85rem; font-weight: bold; }
.square .who { display: block; font-size: .62rem; line-height: .8rem; white-space: nowrap; overflow: hidden; }
.square[hidden] { display: none; }
.reserved { background: repeating-linear-gradient(45deg, var(--edge) 0 2px, transparent 2px 7px); }
.free { border-style: dotted; color: var(--faint); background: transparent; }
.directory { color: #ffffff; background: var(--dark); border: 3px double #ffffff; }
.table { color: #000000; background: var(--middle); border-top: 5px solid #000000; }
.page { color: #000000; background: var(--light); }
.page.shared { background: linear-gradient(135deg, var(--light) 50%, var(--second) 50%); }
.changed { outline: 3px solid var(--mark); outline-offset: 0; }
.failing { outline: 3px dashed var(--bad); outline-offset: 0; }
.failing .how { color: var(--bad); font-size: .75rem; background: var(--ground); }
#processes { display: grid; grid-template-columns: repeat(auto-fill, minmax(21rem, 1fr)); gap: .4rem; }
.process { position: relative; padding: .3rem .6rem; border: 1px solid var(--edge); border-radius: 5px; background: var(--raised); font-size: .8rem; }
.bar { display: flex; width: 100%; max-width: 26rem; height: .9rem; margin: .25rem 0; border: 1px solid var(--ink); }
.bar i { display: block; height: 100%; }
.used { background: var(--middle); }
.given { background: repeating-linear-gradient(45deg, var(--middle) 0 4px, transparent 4px 8px); }
.lazy { display: inline-block; margin: 2px 3px 0 0; padding: 0 3px; font-size: .72rem; border: 1px dashed var(--ink); border-radius: 3px; }
#changes { margin: 0; padding-left: 1.2rem; font-size: .85rem; }
#changes li { margin: .1rem 0; overflow-wrap: anywhere; }
.hint { color: var(--faint); font-size: .85rem; }
.hidden { position: absolute; width: 1px; height: 1px; overflow: hidden; clip-path: inset(50%); }
</style>
</head>
<body>
<header>
<h1 id="title">The film of a script</h1>
<span role="group" aria-label="Steps">
<button id="first" aria-label="to the first step">|&lt;</button>
<button id="back" aria-label="one step back">&lt;</button>
<button id="play" aria-pressed="false">play</button>
<button id="forward" aria-label="one step forward">&gt;</button>
<button id="last" aria-label="to the last step">&gt;|</button>
</span>
<input id="place" type="range" min="0" value="0" aria-label="step">
<output id="step" for="place"></output>
<button id="theme">light or dark</button>
</header>
<main>
<div id="side">
<section id="script" aria-label="the script and its replies" tabindex="0">
<h2>Script and replies</h2>
<ol id="lines"></ol>
<p id="end" class="hint"></p>
</section>
<section id="step-changes" aria-label="all that this step changes" tabindex="0">
<h2>All that this step changes</h2>
<ul id="changes"></ul>
</section>
</div>
<section aria-label="memory after the step">
<h2>What happens</h2>
<p id="says" role="status" aria-live="polite"></p>
<h2 id="heading">Frames</h2>
<ol id="frames" aria-label="frames"></ol>
<h2>Processes</h2>
<div id="processes"></div>
<p class="hint">D is a directory, T a table, P a page, each with the number of its process. S is a shared page with the number of its holders, and below it their processes.
# is the reserved frame, . a free one. The hue is the process's, of five; the bars in a corner tell it from those of its hue, one for each five
processes before it. A thick edge marks what this step changes: + taken, - freed, * words, roles or holders, o offered.</p>
<p class="hint">In a bar: used plain, given striped, room empty. A dashed square is a lazy page: it has no frame yet, and reads as zeros.</p>
<p class="hint">A line that is refused or faults changes nothing, and is struck through. Arrow keys step, Home and End go to the ends, the space bar plays and pauses; a link such as <code>#12</code> leads to a step.
Flags of a page: r a user's, w may write now, m may be made writable, a accessed, d dirty.</p>
</section>
</main>
<noscript><p>The steps are shown by a script, which is off here. The data of the film stand in this page's source, row by row.</p></noscript>
<script type="text/plain" id="film">
"##;

/// The part after it.
pub(crate) const TAIL: &str = r##"</script>
<script>
"use strict";
// ---- The film's data, row by row
const find = name => document.getElementById(name);
const lines = [], steps = [{ changes: [], found: [] }];
let frameCount = 0, end = "";
function plain(text) {
  return text.replace(/\\(3c|5c)/g, (all, code) => code === "3c" ? "<" : "\\");
}
function takeRow(row) {
  const space = row.indexOf(" "), kind = space < 0 ? row : row.slice(0, space), rest = row.slice(space + 1);
  const step = steps[steps.length - 1];
  if (kind === "frames") frameCount = Number(rest);
  else if (kind === "line") lines.push({ text: plain(rest), step: 0, reply: "" });
  else if (kind === "reply") beginStep(rest);
  else if (kind === "damage") beginStep("");
  else if (kind === "found") step.found.push(rest.split(" "));
  else if (kind === "end") end = rest;
  else if (kind !== "") step.changes.push([kind].concat(rest.split(" ")));
}
function beginStep(reply) {
  const line = lines[lines.length - 1];
  line.step = steps.length;
  line.reply = reply;
  steps.push({ changes: [], found: [], line: lines.length - 1, reply });
}
find("film").textContent.split("\n").forEach(takeRow);
// Behind its last line feed a script has a line without a byte.
if (lines.length > 0 && lines[lines.length - 1].text === "") lines.pop();

// ---- Memory, as the rows so far tell it
const roles = new Array(frameCount).fill("F");
const words = Array.from({ length: frameCount }, () => new Map());
const processes = new Array(64).fill("-");
let at = -1;
function put(change, side) {
  const kind = change[0], number = Number(change[1]);
  if (kind === "role") roles[number] = change[2 + side];
  else if (kind === "process") processes[number] = change[2 + side];
  else if (kind === "word") {
    const word = Number(change[3 + side]);
    if (word === 0) words[number].delete(Number(change[2]));
    else words[number].set(Number(change[2]), word);
  }
}
function move(step) {
  while (at < step) steps[++at].changes.forEach(change => put(change, 1));
  while (at > step) steps[at--].changes.forEach(change => put(change, 0));
}
const bit = (word, place) => (word >>> place) & 1;
const frameOf = word => word >>> 12;
const hex = (number, digits) => (number >>> 0).toString(16).padStart(digits, "0");
const pageOf = (slot, index) => slot * 1024 + index;
function flags(word) {
  const sign = (place, letter) => bit(word, place) ? letter : "-";
  return sign(2, "r") + sign(11, "w") + sign(9, "m") + sign(5, "a") + sign(6, "d");
}
function partsOf(role) {
  const parts = role.slice(1).split(".").map(Number);
  return { kind: role[0], process: parts[0], slot: parts[1], count: parts[0] };
}
// Who maps each frame, and the lazy pages of each process, from the tables.
function mapped() {
  const owners = new Map(), lazy = new Map();
  roles.forEach((role, frame) => {
    if (role[0] !== "T") return;
    const { process, slot } = partsOf(role);
    for (const [index, word] of words[frame]) {
      if (!bit(word, 0)) continue;
      const page = { process, page: pageOf(slot, index), word };
      const held = bit(word, 10) ? lazy : owners, key = bit(word, 10) ? process : frameOf(word);
      if (!held.has(key)) held.set(key, []);
      held.get(key).push(page);
    }
  });
  for (const held of owners.values()) held.sort((a, b) => a.process - b.process || a.page - b.page);
  for (const held of lazy.values()) held.sort((a, b) => a.page - b.page);
  return { owners, lazy };
}
const numbersOf = held => [...new Set(held.map(page => page.process))];

// ---- What happens, in words
const isRefused = reply => /^(refused|fault) /.test(reply || "");
const right = word => word === "rw" ? "to read and write" : "to read";
const count = (number, one) => `${number} ${one}${number === 1 ? "" : "s"}`;
const page = text => hex(parseInt(text, 16), 5);
const asked = {
  load: w => `reads ${count(Number(w[4]), "byte")} at ${hex(parseInt(w[3], 16), 8)}`,
  store: w => `writes ${w[5]} (${count(Number(w[4]), "byte")}) at ${hex(parseInt(w[3], 16), 8)}`,
  map: w => `maps page ${page(w[3])}, ${right(w[4])}`,
  unmap: w => `unmaps page ${page(w[3])}`,
  protect: w => `sets page ${page(w[3])} ${w[4] === "rw" ? "to be written" : "to be read only"}`,
  info: w => `asks about page ${page(w[3])}`,
  offer: w => `offers page ${page(w[3])} to process ${Number(w[4])}, ${right(w[5])}`,
  withdraw: w => `withdraws the offer of page ${page(w[3])} to process ${Number(w[4])}`,
  accept: w => `joins the group of ${Number(w[3])}'s page ${page(w[4])}, at its own page ${page(w[5])}`,
  spawn: w => `makes a child with a quota of ${Number(w[3])}`,
  fork: w => `makes a copy of itself as a child with a quota of ${Number(w[3])}`,
  exit: () => "exits",
  quota: () => "asks for its quota",
};
function answered(reply) {
  const w = reply.split(" ");
  if (w[0] === "refused") return `: refused, ${w[1]}. Nothing changes`;
  if (w[0] === "fault") return `: fault ${w[2]} at ${w[1]}. Nothing changes`;
  if (w[0] === "value") return `: ${w[1]}`;
  if (w[0] === "child") return `: process ${w[1]}`;
  if (w[0] === "quota") return `: quota ${w[1]}, used ${w[2]}, given ${w[3]}`;
  if (w[0] === "info") {
    const names = ["may write", "may be made writable", "accessed", "dirty"];
    const set = names.filter((name, place) => w[place + 1] === "1");
    return `: ${set.length ? set.join(", ") : "no flag is set"}; ${count(Number(w[5]), "holder")}`;
  }
  return "";
}
function roleInWords(role, frame, owners) {
  const parts = partsOf(role);
  if (role === "R") return "reserved";
  if (role === "F") return "free";
  if (parts.kind === "D") return `directory of process ${parts.process}`;
  if (parts.kind === "T") return `table of process ${parts.process}, slot ${parts.slot}`;
  const held = owners.get(frame) || [];
  const by = held.map(page => `process ${page.process} at ${hex(page.page, 5)} ${flags(page.word)}`).slice(0, 8).join("; ");
  return `page, held by ${parts.count}${by ? ": " + by : ""}${held.length > 8 ? "; and others" : ""}`;
}
function roleChange(frame, before, after, owners) {
  const parts = partsOf(after);
  if (after === "F") return `frame ${frame} is free again`;
  if (parts.kind === "D") return `frame ${frame} is the directory of process ${parts.process}`;
  if (parts.kind === "T") return `frame ${frame} is a table of process ${parts.process}`;
  if (after === "R") return `frame ${frame} is reserved`;
  if (before[0] === "P") return `frame ${frame} has ${count(parts.count, "holder")} now`;
  const first = (owners.get(frame) || [])[0];
  return first ? `page ${hex(first.page, 5)} of process ${first.process} gets frame ${frame}` : `frame ${frame} is a page`;
}
function sentence(number, owners) {
  const step = steps[number];
  const roleChanges = step.changes.filter(change => change[0] === "role");
  const told = roleChanges.slice(0, 5).map(change => roleChange(Number(change[1]), change[2], change[3], owners));
  if (roleChanges.length > 5) told.push(`${roleChanges.length - 5} more frames change`);
  let text = "The machine boots";
  if (number > 0 && step.reply === "") text = "The image is damaged by hand";
  else if (number > 0) {
    const w = lines[step.line].text.split(" ").filter(word => word !== "");
    text = `Process ${Number(w[1])} ${asked[w[2]](w)}${answered(step.reply)}`;
  }
  const found = step.found.map(found => `${found[0]} ${found[1]} fails ${found[2]}`);
  return [text].concat(told).join("; ") + (found.length ? `. The check finds: ${found.join(", ")}.` : ".");
}
function wordChange(change, dataWords) {
  const frame = Number(change[1]), index = Number(change[2]), before = Number(change[3]), after = Number(change[4]);
  const role = roles[frame] === "F" ? roleBefore(frame) : roles[frame], parts = partsOf(role);
  if (parts.kind === "T") return entryChange(parts.process, pageOf(parts.slot, index), before, after);
  if (parts.kind === "D") {
    const names = bit(after, 0) ? `names the table in frame ${frameOf(after)}` : "names no table";
    return `process ${parts.process}: slot ${index} of its directory ${names}`;
  }
  const known = dataWords.get(frame) || [];
  known.push(`${hex(frame * 4096 + index * 4, 8)} holds ${hex(after, 8)} (was ${hex(before, 8)})`);
  dataWords.set(frame, known);
  return "";
}
function roleBefore(frame) {
  const change = steps[at].changes.find(change => change[0] === "role" && Number(change[1]) === frame);
  return change ? change[2] : roles[frame];
}
const entry = word => !bit(word, 0) ? "not mapped" : (bit(word, 10) ? "lazy" : `frame ${frameOf(word)}`) + " " + flags(word);
function entryChange(process, page, before, after) {
  return `process ${process}: page ${hex(page, 5)} is ${entry(after)} (was ${entry(before)})`;
}
function processChange(change) {
  const names = ["parent", "quota", "used", "given", "directory"];
  if (change[3] === "-") return `process ${change[1]} is gone`;
  const now = change[3].split(","), was = change[2] === "-" ? [] : change[2].split(",");
  const told = names.map((name, place) => now[place] === was[place] ? "" : `${name} ${now[place]}${was.length ? ` (was ${was[place]})` : ""}`);
  return `process ${change[1]}${was.length ? "" : " is new"}: ${told.filter(text => text !== "").join(", ")}`;
}
function details(owners) {
  const told = [], dataWords = new Map();
  for (const change of steps[at].changes) {
    if (change[0] === "role") told.push(`frame ${change[1]}: ${roleInWords(change[3], Number(change[1]), owners)} (was ${roleInWords(change[2], -1, owners)})`);
    else if (change[0] === "word") told.push(wordChange(change, dataWords));
    else told.push(processChange(change));
  }
  for (const [frame, known] of dataWords) {
    told.push(`frame ${frame}, ${count(known.length, "word")}: ${known.slice(0, 4).join("; ")}${known.length > 4 ? "; and others" : ""}`);
  }
  for (const found of steps[at].found) told.push(`the check finds that ${found[0]} ${found[1]} fails ${found[2]}`);
  return told.filter(text => text !== "");
}

// ---- The picture
// The shades and ticks of a process, as in the picture of an image: process numbers that are apart by five have one hue.
const dark = ["#214141", "#524118", "#5a297a", "#526a10", "#7a5a7a"];
const middle = ["#448888", "#aa8833", "#bb55ff", "#aadd22", "#ffbbff"];
const light = ["#b0cdcd", "#dbcda9", "#e2b8ff", "#dbf1a2", "#ffe2ff"];
const shades = process => `--dark:${dark[process % 5]};--middle:${middle[process % 5]};--light:${light[process % 5]}`;
const ticksOf = process => Math.floor(process / 5);
const kinds = { R: "reserved", F: "free", D: "directory", T: "table", P: "page" };
const few = frameCount <= 1024;
const squares = [], shown = [];
function makeSquare(frame) {
  const square = document.createElement("li");
  square.innerHTML = '<span class="at"></span><span class="how"></span><span class="label"></span><span class="who"></span>';
  square.firstChild.textContent = frame;
  const next = squares.findIndex((other, number) => number > frame && other);
  find("frames").insertBefore(square, next < 0 ? null : squares[next]);
  return square;
}
// How a step changed each frame: + taken, - freed, * words, role or holders, o offered.
function marks(owners) {
  const marked = new Map(), step = steps[at];
  for (const change of step.changes) {
    const frame = Number(change[1]);
    if (change[0] === "role" && at > 0) marked.set(frame, change[3] === "F" ? "-" : change[2] === "F" ? "+" : "*");
    else if (change[0] === "word" && at > 0 && !marked.has(frame)) marked.set(frame, "*");
  }
  const offered = offeredPage();
  if (offered) for (const [frame, held] of owners) {
    if (held.some(page => page.process === offered.process && page.page === offered.page)) marked.set(frame, "o");
  }
  return marked;
}
function offeredPage() {
  if (at === 0 || steps[at].reply !== "done") return null;
  const w = lines[steps[at].line].text.split(" ").filter(word => word !== "");
  return w[2] === "offer" || w[2] === "withdraw" ? { process: Number(w[1]), page: parseInt(w[3], 16) } : null;
}
function lookOf(frame, owners, marked, failing) {
  const role = roles[frame], parts = partsOf(role), held = owners.get(frame) || [], who = numbersOf(held);
  const first = parts.kind === "P" ? who[0] : parts.process;
  let label = parts.kind === "R" ? "#" : parts.kind === "F" ? "." : role.split(".")[0], below = "";
  if (parts.kind === "P") {
    label = parts.count === 1 && held.length <= 1 ? "P" + (who.length ? who[0] : "") : "S" + parts.count;
    below = label[0] === "S" ? who.slice(0, 4).join(" ") + (who.length > 4 ? ".." : "") : "";
  } else if (parts.kind === "T") below = String(parts.slot);
  const how = failing.get(frame) || marked.get(frame) || "";
  const classes = ["square", kinds[parts.kind], marked.has(frame) ? "changed" : "", failing.has(frame) ? "failing" : ""];
  if (parts.kind === "P" && who.length > 1) classes.push("shared");
  const style = first === undefined ? "--ticks:0;--light:transparent" : `${shades(first)};--ticks:${ticksOf(first)}`;
  const said = failing.has(frame) ? `, fails ${failing.get(frame)}` : marked.has(frame) ? ", changed in this step" : "";
  return { label, below, how, classes: classes.join(" "), style: who.length > 1 ? `${style};--second:${light[who[1] % 5]}` : style,
    title: `frame ${frame}: ${roleInWords(role, frame, owners)}${said}`, hidden: !few && role === "F" && !marked.has(frame) };
}
function drawSquare(frame, look) {
  const key = JSON.stringify(look);
  if (shown[frame] === key) return;
  shown[frame] = key;
  const square = squares[frame] || (squares[frame] = makeSquare(frame));
  square.className = look.classes;
  square.style.cssText = look.style;
  square.title = look.title;
  square.setAttribute("aria-label", look.title);
  square.hidden = look.hidden;
  square.children[1].textContent = look.how;
  square.children[2].textContent = look.label;
  square.children[3].textContent = look.below;
}
function bar(used, given, quota) {
  const part = number => quota === 0 ? 0 : Math.min(100, 100 * number / quota);
  return `<div class="bar" aria-hidden="true"><i class="used" style="width:${part(used)}%"></i><i class="given" style="width:${Math.min(100 - part(used), part(given))}%"></i></div>`;
}
function drawProcesses(lazy) {
  const step = steps[at], changed = new Set(step.changes.filter(change => change[0] === "process").map(change => Number(change[1])));
  const failing = new Map(step.found.filter(found => found[0] === "process").map(found => [Number(found[1]), found[2]]));
  let text = "";
  processes.forEach((process, number) => {
    if (process === "-") return;
    const [parent, quota, used, given] = process.split(",").map(Number);
    const pages = lazy.get(number) || [], room = Math.max(0, quota - used - given);
    const name = number === 0 ? "process 0" : `process ${number}, child of ${parent}`;
    const mark = failing.has(number) ? ` <strong>fails ${failing.get(number)}</strong>` : changed.has(number) && at > 0 ? " <strong>* changed</strong>" : "";
    const squares = pages.slice(0, 48).map(page => `<span class="lazy">${hex(page.page, 5)}</span>`).join("");
    text += `<div class="process ${failing.has(number) ? "failing" : changed.has(number) && at > 0 ? "changed" : ""}" style="${shades(number)};--ticks:${ticksOf(number)}">` +
      `${name}: used ${used}, given ${given}, room ${room} of ${quota}${mark}${bar(used, given, quota)}` +
      (pages.length ? `<div>${count(pages.length, "lazy page")}: ${squares}${pages.length > 48 ? "and others" : ""}</div>` : "") + "</div>";
  });
  find("processes").innerHTML = text;
}
// Scrolls the script alone, and only where the line is out of sight.
function showLine(item) {
  const box = find("script"), top = item.offsetTop, bottom = top + item.offsetHeight;
  if (top < box.scrollTop || bottom > box.scrollTop + box.clientHeight) box.scrollTop = top - box.clientHeight / 2;
}
// Scrolls the page where the first frame or process that the step changes is out of sight.
function showChange() {
  const first = at === 0 ? null : document.querySelector("#frames .changed, #frames .failing") || document.querySelector("#processes .changed, #processes .failing");
  if (first) first.scrollIntoView({ block: "nearest" });
}
let told = 0;
// Shows the replies up to the step, and marks its line: only what lies between the last step and this one changes.
function drawLines() {
  for (let step = Math.min(told, at) + 1; step <= Math.max(told, at); step++) {
    find("lines").children[steps[step].line].classList.toggle("later", step > at);
  }
  if (told > 0) find("lines").children[steps[told].line].removeAttribute("aria-current");
  told = at;
  if (at === 0) {
    find("script").scrollTop = 0;
    return;
  }
  const item = find("lines").children[steps[at].line];
  item.setAttribute("aria-current", "step");
  showLine(item);
}
function draw() {
  const { owners, lazy } = mapped(), marked = marks(owners);
  const failing = new Map(steps[at].found.filter(found => found[0] === "frame").map(found => [Number(found[1]), found[2]]));
  for (let frame = 0; frame < frameCount; frame++) {
    if (few || roles[frame] !== "F" || marked.has(frame) || squares[frame]) drawSquare(frame, lookOf(frame, owners, marked, failing));
  }
  drawProcesses(lazy);
  find("says").textContent = sentence(at, owners);
  find("says").className = isRefused(steps[at].reply) ? "refused" : "";
  find("changes").replaceChildren(...details(owners).map(text => Object.assign(document.createElement("li"), { textContent: text })));
  find("place").value = at;
  find("step").textContent = `step ${at} of ${steps.length - 1}`;
  drawLines();
  showChange();
}

// ---- Steps
let timer = 0;
// The page's address follows behind the last of quick steps, since browsers refuse to change it too often.
let linking = 0;
function go(step) {
  move(Math.max(0, Math.min(steps.length - 1, step)));
  draw();
  clearTimeout(linking);
  linking = setTimeout(() => history.replaceState(null, "", "#" + at), 200);
}
function play(on) {
  clearInterval(timer);
  timer = on ? setInterval(() => at < steps.length - 1 ? go(at + 1) : play(false), 900) : 0;
  find("play").textContent = on ? "pause" : "play";
  find("play").setAttribute("aria-pressed", String(on));
}
const keys = { ArrowRight: () => go(at + 1), ArrowDown: () => go(at + 1), ArrowLeft: () => go(at - 1), ArrowUp: () => go(at - 1),
  Home: () => go(0), End: () => go(steps.length - 1), " ": () => play(timer === 0) };
function makeLine(line, number) {
  const item = document.createElement("li");
  const text = line.step > 0 ? `<a href="#${line.step}"></a>` : "";
  item.innerHTML = `<span class="number">${number + 1}</span><span class="text">${text}</span><span class="reply"></span>`;
  (item.querySelector("a") || item.children[1]).textContent = line.text;
  item.children[2].textContent = line.reply;
  item.className = line.step > 0 ? "later" : "skipped";
  item.classList.toggle("refused", isRefused(line.reply));
  return item;
}
function begin() {
  find("title").textContent = `Film of a script on ${frameCount} frames`;
  find("heading").textContent = few ? "Frames" : "Frames in use";
  find("frames").className = frameCount > 64 ? "many" : "";
  lines.forEach((line, number) => find("lines").append(makeLine(line, number)));
  const ends = { whole: "The script ends here.", cut: "A film shows the first 2,000 events; the script goes on." };
  find("end").textContent = ends[end] || `Line ${end.split(" ")[1]} is malformed: the script is not run further.`;
  find("place").max = steps.length - 1;
  find("place").addEventListener("input", event => go(Number(event.target.value)));
  find("first").addEventListener("click", () => go(0));
  find("back").addEventListener("click", () => go(at - 1));
  find("forward").addEventListener("click", () => go(at + 1));
  find("last").addEventListener("click", () => go(steps.length - 1));
  find("play").addEventListener("click", () => play(timer === 0));
  find("theme").addEventListener("click", () => {
    const dark = getComputedStyle(document.documentElement).colorScheme === "dark" ||
      (document.documentElement.style.colorScheme === "" && matchMedia("(prefers-color-scheme: dark)").matches);
    document.documentElement.style.colorScheme = dark ? "light" : "dark";
  });
  window.addEventListener("hashchange", event => go(Number(new URL(event.newURL).hash.slice(1)) || 0));
  document.addEventListener("keydown", event => {
    const typed = event.target.tagName === "INPUT" || (event.key === " " && event.target.tagName === "BUTTON");
    if (typed || event.ctrlKey || event.altKey || event.metaKey || !keys[event.key]) return;
    event.preventDefault();
    keys[event.key]();
  });
  go(Number(location.hash.slice(1)) || 0);
}
begin();
</script>
</body>
</html>
"##;
