//! The fixed parts of the pages: of the page of an explanation all but its data; of the page that
//! no bad schedule was found all but the name of the file and the sentence that says so.

/// The beginning of each page, up to the title or the style.
pub const HEAD: &str = r##"<!DOCTYPE html>
<html lang="en">
<head>
<meta charset="utf-8">
<meta name="viewport" content="width=device-width, initial-scale=1">
<link rel="icon" href="data:,">
"##;

/// The page of an explanation, from the title up to the data.
pub const PAGE_BEGIN: &str = r##"<title>ctxbound</title>
<style>
:root { color-scheme: light dark; --ink: #1c2430; --soft: #5b6675; --line: #d7dce3; --paper: #fff; --back: #f5f6f8;
  --bad: #c62828; --held: #c3cad6; --now: #fff3c4; --chosen: #ffd54f; --arrow: #8a94a6;
  --t0: #3559a8; --t1: #2e7d32; --t2: #8e44ad; --t3: #b8601a; --t4: #00796b; --t5: #ad1457; --t6: #5d4037;
  --t7: #37474f; }
@media (prefers-color-scheme: dark) {
  :root { --ink: #e6e9ee; --soft: #9aa5b4; --line: #3a4350; --paper: #1d2229; --back: #14181d;
    --bad: #ff7b72; --held: #4a5462; --now: #4a4220; --chosen: #b08900; --arrow: #7d8898;
    --t0: #7aa2f7; --t1: #7bc47f; --t2: #cf8ef0; --t3: #f0a35e; --t4: #4fc3b0; --t5: #f48fb1; --t6: #bcaaa4;
    --t7: #b0bec5; }
}
* { box-sizing: border-box; }
body { margin: 0; font: 14px/1.45 system-ui, sans-serif; color: var(--ink); background: var(--back); }
header { padding: 12px 16px; background: var(--paper); border-bottom: 1px solid var(--line); }
h1 { margin: 0; font-size: 17px; overflow-wrap: break-word; }
h2 { margin: 0 0 6px; font-size: 13px; color: var(--soft); }
#summary { margin: 4px 0 8px; overflow-wrap: break-word; } .bad { color: var(--bad); font-weight: 600; }
#why p { margin: 2px 0 0; padding-left: 1em; text-indent: -1em; overflow-wrap: break-word; }
#why a { color: inherit; text-decoration-color: var(--soft); } #why a.thread { font-weight: 600; }
#replay { display: flex; gap: 8px; align-items: start; margin: 8px 0 0; }
#command { font: 12px/1.5 ui-monospace, monospace; overflow-wrap: anywhere; }
main { display: grid; grid-template-columns: minmax(240px, 2fr) minmax(0, 3fr); gap: 12px; padding: 12px 16px;
  align-items: start; }
section { background: var(--paper); border: 1px solid var(--line); border-radius: 6px; padding: 10px; min-width: 0; }
#source { max-height: 82vh; overflow: auto; position: relative; font: 12px/1.5 ui-monospace, monospace;
  white-space: pre; }
#source .line { display: flex; min-width: max-content; }
#source .number { width: 3em; color: var(--soft); text-align: right; flex: none; }
#source .badges { min-width: 6px; padding: 0 4px; } #source .here { background: var(--now); }
#source .statement { border-bottom: 2px solid; }
.badge { font: 11px system-ui, sans-serif; color: var(--paper); border-radius: 8px; padding: 0 6px;
  margin-right: 2px; }
#right { display: grid; gap: 12px; min-width: 0; }
#lanes { max-height: 48vh; overflow: auto; }
#lanes svg { display: block; } #names { position: sticky; top: 0; background: var(--paper); }
svg text { font: 11px ui-monospace, monospace; fill: var(--ink); }
.label { paint-order: stroke; stroke: var(--paper); stroke-width: 4px; stroke-linejoin: round; cursor: pointer; }
.label.failed, .failed { fill: var(--bad); font-weight: 600; } .soft { fill: var(--soft); }
.cause .label { font-weight: 600; }
.mark { fill: var(--bad); } .held { fill: var(--held); } .lane { stroke: var(--line); }
.interruption { fill: var(--bad); opacity: .35; }
.arrow { fill: none; stroke: var(--arrow); stroke-dasharray: 3 3; } .tip { fill: var(--arrow); }
#chosen { fill: var(--chosen); opacity: .3; }
.edge { fill: none; stroke: var(--soft); stroke-width: 1.2; } .edge.circle { stroke: var(--bad); stroke-width: 2.5; }
.edgetip { fill: var(--soft); } .circletip { fill: var(--bad); }
.halo { paint-order: stroke; stroke: var(--paper); stroke-width: 4px; }
#legend { margin: 8px 0 0; color: var(--soft); font-size: 12px; } #legend b { color: var(--bad); }
#legend .soft { color: var(--soft); } #legend .grey { color: var(--held); }
#legend span { margin-right: 14px; white-space: nowrap; }
#control { display: flex; gap: 8px; align-items: center; flex-wrap: wrap; } #slider { flex: 1; min-width: 120px; }
#place { flex-basis: 100%; min-width: 0; overflow-wrap: anywhere; }
#state { display: flex; flex-wrap: wrap; gap: 12px; overflow-x: auto; } #state > div { flex: 1 1 150px; }
table { border-collapse: collapse; font: 12px ui-monospace, monospace; }
td { padding: 1px 10px 1px 0; vertical-align: top; }
.changed { background: var(--now); } #graph svg { max-width: 100%; height: auto; } #search { overflow-x: auto; }
@media (max-width: 800px) {
  main { grid-template-columns: minmax(0, 1fr); padding: 8px; } #source { max-height: 36vh; }
  #lanes { max-height: 40vh; }
  #right { display: contents; } #steps { position: sticky; top: 0; z-index: 1; order: -1; }
}
@media print {
  main { display: block; } section { margin: 0 0 10px; } #steps, #copy { display: none; }
  #source, #lanes { max-height: none; overflow: visible; } #source { white-space: pre-wrap; }
  #source .line { min-width: 0; } #source .text { min-width: 0; overflow-wrap: anywhere; }
  #lanes svg { max-width: 100%; height: auto; } #names { position: static; }
}
</style>
</head>
<body>
<header><h1 id="title"></h1><p id="summary"></p><div id="why"></div>
<div id="replay"><code id="command"></code><button id="copy" type="button">Copy</button></div></header>
<main>
<section><h2>Source</h2><div id="source" tabindex="0"></div></section>
<div id="right">
<section id="steps"><div id="control"><button id="back" type="button" aria-label="one step back">&#8592;</button>
<input id="slider" type="range" min="0" value="0" aria-label="step">
<button id="on" type="button" aria-label="one step on">&#8594;</button><output id="place"></output></div></section>
<section><h2>Steps</h2><div id="lanes" tabindex="0"></div><p id="legend"></p></section>
<section id="state"></section>
<section id="waits" hidden><h2>Who waits for whom at the end</h2><div id="graph"></div></section>
<section id="search" hidden><h2>How schedules end</h2><p id="counts"></p><table id="ends"></table></section>
</div>
</main>
<script type="application/json" id="data">"##;

/// The page of an explanation, from the data on.
pub const PAGE_END: &str = r##"</script>
<script>
"use strict";
const data = JSON.parse(document.getElementById("data").textContent);
const steps = data.steps, names = data.opening.threads.map((t) => t.name);
const colour = (t) => "var(--t" + t % 8 + ")";
const byId = (id) => document.getElementById(id);
const few = (count, thing) => count + " " + thing + (count === 1 ? "" : "s");
// A table by name, in which no name is there already, whatever it is.
const byName = (of) => Object.assign(Object.create(null), of);
function make(tag, text, name) {
  const e = document.createElement(tag);
  if (text !== undefined) e.textContent = text;
  if (name) e.className = name;
  return e;
}
function draw(parent, tag, attributes, text) {
  const e = document.createElementNS("http://www.w3.org/2000/svg", tag);
  for (const key in attributes) e.setAttribute(key, attributes[key]);
  if (text !== undefined) e.textContent = text;
  parent.appendChild(e);
  return e;
}
function tip(svg, id, name) {
  const head = draw(draw(svg, "defs", {}), "marker",
    { id: id, viewBox: "0 0 8 8", refX: 7, refY: 4, markerWidth: 7, markerHeight: 7,
    markerUnits: "userSpaceOnUse", orient: "auto" });
  draw(head, "path", { d: "M0 0L8 4L0 8z", class: name });
}
// The state after the first `count` steps: each step has what it changed.
function stateAfter(count) {
  const opening = data.opening, fill = (of, value) => byName(Object.fromEntries(of.map((name) => [name, value])));
  const s = { variables: byName(opening.variables), mutexes: fill(opening.mutexes, null),
    conditions: fill(opening.conditions, []),
    semaphores: byName(opening.semaphores), locals: names.map(() => byName()), next: [] };
  opening.threads.forEach((t, i) => {
    s.next[i] = t.next;
    t.sets.forEach((l) => { s.locals[i][l.local] = l.value; });
  });
  for (const step of steps.slice(0, count)) {
    for (const name in step.after) {
      for (const kind of ["variables", "mutexes", "conditions", "semaphores"]) {
        if (name in s[kind]) s[kind][name] = step.after[name];
      }
    }
    step.sets.forEach((l) => { s.locals[step.thread][l.local] = l.value; });
    s.next[step.thread] = step.next;
  }
  return s;
}
// What a step did, with its values.
function told(s) {
  const from = s.act + " " + s.object;
  if (s.act === "load") return from + ": " + s.new;
  if (s.act === "cas" && String(s.sets[0].value) === "0") return from + ": " + s.old + ", miss";
  if (["store", "add", "cas", "acquire", "release"].includes(s.act)) return from + ": " + s.old + " \u2192 " + s.new;
  if (s.act === "signal" || s.act === "broadcast") {
    return from + (s.woken.length ? ": wakes " + s.woken.join(", ") : ": wakes nobody");
  }
  return from;
}
const label = (s) => told(s) + (s.stop === null ? "" : "  FAILED: " + s.stop);
// The steps that have a row: those up to a failure, and later ones that are in the cause.
const failure = data.failures.length ? data.failures[0] : null;
const ran = failure === null ? steps.length : failure.step === null ? 0 : failure.step + 1;
const rows = steps.map((s, k) => k).filter((k) => k < ran || steps[k].cause);
const row = 22, left = 60, lanes = [], places = [];
rows.forEach((k, place) => { places[k] = place; });
const xOf = (t) => lanes[t], yOf = (k) => places[k] * row + row / 2;
let wide = left;
// Where a step read what another thread wrote, or a thread took its mutex again after it was woken.
function arrows() {
  const wrote = byName(), called = byName(), found = [];
  steps.forEach((s, k) => {
    const isRead = ["load", "add", "cas"].includes(s.act) && s.object in wrote;
    if (isRead && steps[wrote[s.object]].thread !== s.thread) found.push([wrote[s.object], k]);
    if (s.act === "retake" && s.name in called) found.push([called[s.name], k]);
    if (["store", "add"].includes(s.act) || (s.act === "cas" && String(s.sets[0].value) === "1")) wrote[s.object] = k;
    s.woken.forEach((n) => { called[n] = k; });
  });
  return found.filter(([from, to]) => from in places && to in places);
}
function setLanes() {
  const most = names.map((n) => n.length);
  rows.map((k) => steps[k]).forEach((s) => { most[s.thread] = Math.max(most[s.thread], label(s).length); });
  names.forEach((n, t) => { lanes[t] = wide + 14; wide += 34 + 6.8 * most[t]; });
}
function drawLanes() {
  setLanes();
  const tall = rows.length * row + 8;
  const heads = draw(byId("lanes"), "svg",
    { width: wide, height: 24, viewBox: "0 0 " + wide + " 24", id: "names", "aria-hidden": "true" });
  const svg = draw(byId("lanes"), "svg",
    { width: wide, height: tall, viewBox: "0 0 " + wide + " " + tall, id: "chart", role: "img",
    "aria-label": "the steps of each thread" });
  tip(svg, "head", "tip");
  draw(svg, "rect", { id: "chosen", x: 0, y: 0, width: wide, height: row });
  names.forEach((n, t) => {
    draw(svg, "line", { x1: xOf(t), x2: xOf(t), y1: 0, y2: tall, class: "lane" });
    draw(heads, "text", { x: xOf(t) - 8, y: 15, style: "font-weight:600;fill:" + colour(t) }, n);
  });
  const owned = byName();
  const stripe = (m, to) => {
    const [t, from] = owned[m];
    draw(svg, "rect", { x: xOf(t) - 11 - 5 * (data.opening.mutexes.indexOf(m) % 3), y: yOf(from), width: 4,
      height: Math.max(4, to - yOf(from)), class: "held" });
    delete owned[m];
  };
  rows.forEach((k) => {
    const s = steps[k];
    for (const m of data.opening.mutexes) {
      if (!(m in s.after)) continue;
      if (s.after[m] === s.name && !(m in owned)) owned[m] = [s.thread, k];
      if (s.after[m] === null && m in owned) stripe(m, yOf(k));
    }
  });
  Object.keys(owned).forEach((m) => stripe(m, rows.length * row));
  arrows().forEach(([from, to]) => {
    const x = xOf(steps[from].thread), y = yOf(from), v = xOf(steps[to].thread), w = yOf(to),
      bend = Math.min(60, 10 + (w - y) / 3);
    draw(svg, "path", { d: "M" + (x + 3) + " " + (y + 4) + "C" + (x + 3) + " " + (y + bend) + " " + (v + 1) + " "
      + (w - bend) + " " + (v + 1) + " " + (w - 5), class: "arrow", "marker-end": "url(#head)" });
  });
  rows.forEach((k, place) => {
    const s = steps[k];
    const group = draw(svg, "g", { class: "step" + (s.cause ? " cause" : ""), id: "step" + k });
    const top = yOf(k) - row / 2 - 2;
    if (s.preempting) draw(group, "rect", { x: 0, y: top, width: wide, height: 4, class: "interruption" });
    draw(group, "circle",
      { cx: xOf(s.thread), cy: yOf(k), r: 4, style: "fill:" + (s.stop === null ? colour(s.thread) : "var(--bad)") });
    draw(group, "text", { x: xOf(s.thread) + 9, y: yOf(k) + 4, class: s.stop === null ? "label" : "label failed" },
      label(s));
    group.addEventListener("click", () => show(place + 1));
  });
  // The numbers and marks of the steps stay where they are when the box is scrolled to the right.
  const edge = draw(svg, "g", { id: "edge" });
  rows.forEach((k, place) => {
    if (steps[k].cause) draw(edge, "path", { d: "M4 " + (yOf(k) - 5) + "l8 5l-8 5z", class: "mark" });
    draw(edge, "text", { x: 18, y: yOf(k) + 4, class: "halo soft" }, String(k)).onclick = () => show(place + 1);
  });
  byId("lanes").addEventListener("scroll",
    (e) => edge.setAttribute("transform", "translate(" + e.target.scrollLeft + ")"));
  const legend = byId("legend");
  const item = (sign, text, name) => {
    const e = make("span");
    e.append(make("b", sign, name), " " + text);
    legend.append(e, " ");
  };
  const shown = rows.map((k) => steps[k]);
  if (shown.some((s) => s.cause)) item("\u25b8", "in the cause");
  if (shown.some((s) => s.preempting)) item("\u2501", "a thread is interrupted");
  if (shown.some((s) => s.stop !== null)) item("\u25cf", "a thread fails");
  if (arrows().length) item("\u2506", "where a value or a wake-up came from", "soft");
  if (data.opening.mutexes.length) item("\u258c", "a mutex is held", "grey");
}
const texts = data.source.split("\n");
// Where each line comes from, by the marks of a preprocessor.
const marks = new Map((data.marks || []).map((m) => [m.at, m])), origins = [];
texts.forEach((text, i) => {
  const last = origins[i - 1] || null;
  origins.push(marks.get(i + 1) || last && { file: last.file, line: last.line + 1 });
});
const lines = texts.map((text, i) => {
  const e = make("div", undefined, "line"), origin = origins[i];
  const number = make("span", String(origin === null ? i + 1 : origin.line), "number");
  if (origin !== null) number.title = origin.file + ":" + origin.line;
  e.append(number, make("span", "", "badges"), make("span", text, "text"));
  byId("source").appendChild(e);
  return e;
});
// A line whose statements are marked that threads have come to.
function markLine(i, marks) {
  const text = lines[i].lastChild, pieces = [];
  let at = 0;
  marks.sort((a, b) => a.from - b.from).forEach((m) => {
    const piece = make("span", texts[i].slice(m.from, m.to), "statement");
    piece.style.borderColor = colour(m.thread);
    pieces.push(texts[i].slice(at, m.from), piece);
    at = m.to;
  });
  text.replaceChildren(...pieces, texts[i].slice(at));
  lines[i].classList.toggle("here", marks.length > 0);
  lines[i].querySelector(".badges").replaceChildren(...marks.map((m) => {
    const badge = make("span", names[m.thread], "badge");
    badge.style.background = colour(m.thread);
    return badge;
  }));
}
let marked = [];
function showSource(s, count) {
  const marks = {};
  s.next.forEach((next, t) => {
    if (next === null || next.line < 1 || next.line > lines.length) return;
    const i = next.line - 1, to = next.end.line === next.line ? next.end.column - 1 : texts[i].length;
    (marks[i] = marks[i] || []).push({ from: next.column - 1, to: to, thread: t });
  });
  for (const i of marked) if (!(i in marks)) markLine(i, []);
  for (const i in marks) markLine(i, marks[i]);
  marked = Object.keys(marks);
  if (count > 0) scrollTo(byId("source"), lines[Math.min(steps[count - 1].line, lines.length) - 1].offsetTop, 0, 0);
}
// Scrolls a box, and not the page, to a place in it, where that can't be seen.
function scrollTo(box, y, x, width) {
  const isSeen = y >= box.scrollTop + 30 && y <= box.scrollTop + box.clientHeight - 60;
  if (!isSeen) box.scrollTop = Math.max(0, y - box.clientHeight / 2);
  const isBeside = x < box.scrollLeft + 40 || x + width > box.scrollLeft + box.clientWidth;
  if (width > 0 && isBeside) box.scrollLeft = Math.max(0, x - 80);
}
function block(title, rows, changed) {
  const e = make("div"), table = make("table");
  e.append(make("h2", title), table);
  rows.forEach(([name, value]) => {
    const tr = make("tr");
    tr.append(make("td", name), make("td", String(value)));
    if (changed.includes(name)) tr.className = "changed";
    table.appendChild(tr);
  });
  return e;
}
function showState(s, count) {
  const step = count > 0 ? steps[count - 1] : null, touched = step === null ? [] : Object.keys(step.after);
  const parts = [block("Variables", Object.entries(s.variables), touched),
    block("Mutexes", Object.entries(s.mutexes).map(([m, o]) => [m, o === null ? "free" : o]), touched),
    block("Conditions", Object.entries(s.conditions).map(([c, q]) => [c, q.length ? q.join(", ") : "nobody waits"]),
      touched),
    block("Semaphores", Object.entries(s.semaphores), touched)];
  s.locals.forEach((l, t) => {
    const sets = step !== null && step.thread === t ? step.sets.map((x) => x.local) : [];
    parts.push(block(names[t], Object.entries(l), sets));
  });
  byId("state").replaceChildren(...parts.filter((p) => p.querySelector("tr")));
}
// An arrow from each thread that waits to each for which it waits, round a circle of those threads.
function drawGraph() {
  const waited = (t) => t.waits === null ? [] : t.waits.on;
  const edges = data.threads.flatMap((t, u) => waited(t).map((n) => [u, names.indexOf(n), t.waits.object]));
  const there = names.map((n, t) => t).filter((t) => edges.some((e) => e[0] === t || e[1] === t));
  if (edges.length === 0) return;
  byId("waits").hidden = false;
  const r = Math.max(80, there.length * 20), side = 2 * r + 110, width = side + 160, mid = [width / 2, side / 2];
  const angle = (t) => 2 * Math.PI * there.indexOf(t) / there.length - Math.PI / 2;
  const at = (t) => [mid[0] + r * Math.cos(angle(t)), mid[1] + r * Math.sin(angle(t))];
  const svg = draw(byId("graph"), "svg",
    { width: width, height: side, viewBox: "0 0 " + width + " " + side, role: "img",
    "aria-label": edges.map(([t, u, object]) => names[t] + " waits for " + object + " and " + names[u]).join("; ") });
  tip(svg, "edgetip", "edgetip"); tip(svg, "circletip", "circletip");
  const labels = [];
  edges.forEach(([t, u, object]) => {
    const red = data.circles.some((c) => c.includes(names[t]) && c.includes(names[u])), [x, y] = at(t), [v, w] = at(u);
    const out = [Math.cos(angle(t)), Math.sin(angle(t))], d = Math.hypot(v - x, w - y) || 1,
      n = [(w - y) / d, (x - v) / d];
    const bend = [(x + v) / 2 + 26 * n[0], (y + w) / 2 + 26 * n[1]], to = Math.hypot(v - bend[0], w - bend[1]) || 1;
    const path = t === u
      ? "M" + (x - 8) + " " + (y + 10) + "C" + (x - 60 * out[0] - 45) + " " + (y - 60 * out[1] + 30) + " "
        + (x - 60 * out[0] + 45) + " " + (y - 60 * out[1] + 30) + " " + (x + 8) + " " + (y + 13)
      : "M" + x + " " + y + "Q" + bend[0] + " " + bend[1] + " " + (v + 13 * (bend[0] - v) / to) + " "
        + (w + 13 * (bend[1] - w) / to);
    draw(svg, "path",
      { d: path, class: red ? "edge circle" : "edge", "marker-end": red ? "url(#circletip)" : "url(#edgetip)" });
    labels.push([t === u ? x - 45 * out[0] : (3 * x + 6 * bend[0] + v) / 10,
      t === u ? y - 45 * out[1] + 20 : (3 * y + 6 * bend[1] + w) / 10, object, red]);
  });
  labels.forEach(([x, y, object, red]) => draw(svg, "text",
    { x: x, y: y, "text-anchor": "middle", class: red ? "halo failed" : "halo soft" }, object));
  there.forEach((t) => {
    const [x, y] = at(t), c = Math.cos(angle(t)), anchor = c > 0.3 ? "start" : c < -0.3 ? "end" : "middle";
    draw(svg, "circle", { cx: x, cy: y, r: 10, style: "fill:" + colour(t) });
    draw(svg, "text",
      { x: x + 16 * c, y: y + 4 + 20 * Math.sin(angle(t)), "text-anchor": anchor, class: "halo node" },
      names[t] + (data.threads[t].waits === null ? " (" + data.threads[t].status + ")" : ""));
  });
}
// How the schedules end that the search tried, where one found this schedule.
function showEnds() {
  const search = data.search, kinds = byId("ends");
  if (search === null) return;
  byId("search").hidden = false;
  const within = search.bound === null ? "" : " with at most " + few(search.bound, "preemption");
  byId("counts").textContent = few(search.tried, "schedule") + within + " tried"
    + (search.symmetry ? ", equal threads once" : "") + ": " + search.failed + " failed, "
    + search.stuck + " stuck" + (search.quick ? ", others left out by a quick search" : "")
    + (search.verdict === "incomplete" ? ", then cut short" : "") + ".";
  const head = make("tr");
  head.append(make("td", "ends"), ...data.opening.declared.map((name) => make("td", name)));
  kinds.append(head);
  search.ends.forEach((end) => {
    const own = end.kind === data.kind
      && data.opening.declared.every((name, x) => String(data.end.variables[name]) === String(end.vars[x]));
    const tr = make("tr", undefined, own ? "changed" : "");
    tr.append(make("td", end.kind, end.kind === "done" ? "" : "bad"),
      ...end.vars.map((value) => make("td", String(value))));
    if (own) tr.append(make("td", "this schedule"));
    kinds.append(tr);
  });
}
// Shows the state after the step in the row at this place, counted from 1; 0 is the start.
function show(place) {
  const count = place > 0 ? rows[place - 1] + 1 : 0, s = stateAfter(count), step = count > 0 ? steps[count - 1] : null;
  const from = step !== null && step.from ? " (" + step.from.file + ":" + step.from.line + ")" : "";
  const turns = step === null ? [] : step.turns || [], at = from + turns.map((t) => ", turn " + t.turn + " of " + t.of).join("");
  const words = step === null ? "at the start"
    : "after step " + step.step + " of 0 to " + (steps.length - 1) + ": " + step.name + at + (at ? ": " : " ") + label(step);
  byId("slider").value = place;
  byId("slider").setAttribute("aria-valuetext", words);
  byId("place").textContent = words;
  byId("chosen").setAttribute("y", step === null ? -row : yOf(count - 1) - row / 2);
  if (step === null) scrollTo(byId("lanes"), 0, 0, 0);
  else scrollTo(byId("lanes"), yOf(count - 1) + 24, xOf(step.thread), 20 + 6.8 * label(step).length);
  showSource(s, count); showState(s, count);
}
window.addEventListener("resize", () => show(chosen()));
const chosen = () => Number(byId("slider").value), move = (to) => show(Math.max(0, Math.min(rows.length, to)));
document.title = data.file + " - ctxbound";
byId("title").textContent = data.file;
// The words on top: the first line says how the schedule ends, the last one has the command, and each line between them
// a part of why, further in where it is a part of the line before it. Threads and steps lead to their rows.
const words = data.why.trimEnd().split("\n"), replay = words.pop().slice("Replay: ".length);
function showEnding(head) {
  const ending = /: (FAILED|STUCK|DONE|REFUSED|NOT COMPLETE)\b/.exec(head), from = head.slice(0, ending.index);
  const line = from.startsWith(data.file + ":") ? " in line " + from.slice(data.file.length + 1) : " in " + from;
  byId("summary").append(make("span", ending[1], ["DONE", "NOT COMPLETE"].includes(ending[1]) ? "" : "bad"),
    (ending[1] === "FAILED" ? line : "") + spaced(head.slice(ending.index + ending[0].length)));
}
const spaced = (text) => text.replace(/ {2,}/g, "\u2003");
const linked = new RegExp("\\bstep (\\d+)|\\b(" + names.join("|") + ")\\b", "g");
function paragraph(line) {
  const e = make("p"), text = spaced(line.trim());
  let at = 0;
  e.style.marginLeft = (line.length - line.trimStart().length) / 2 + "em";
  for (const found of text.matchAll(linked)) {
    const t = names.indexOf(found[2]), k = rows.findLast((j) => t < 0 ? j === Number(found[1]) : steps[j].thread === t);
    if (k === undefined) continue;
    const part = make("a", found[0], t < 0 ? "" : "thread");
    part.href = "#step" + k;
    if (t >= 0) part.style.color = colour(t);
    part.addEventListener("click", (e) => { e.preventDefault(); show(places[k] + 1); });
    e.append(text.slice(at, found.index), part);
    at = found.index + found[0].length;
  }
  e.append(text.slice(at));
  return e;
}
showEnding(words[0]);
byId("why").append(...words.slice(1).filter((line) => line !== "").map(paragraph));
byId("command").textContent = replay;
byId("copy").addEventListener("click",
  () => navigator.clipboard.writeText(replay).then(() => { byId("copy").textContent = "Copied"; }));
byId("slider").max = rows.length;
byId("slider").addEventListener("input", (e) => show(Number(e.target.value)));
byId("back").addEventListener("click", () => move(chosen() - 1));
byId("on").addEventListener("click", () => move(chosen() + 1));
document.addEventListener("keydown", (e) => {
  const to = { ArrowLeft: chosen() - 1, ArrowUp: chosen() - 1, ArrowRight: chosen() + 1, ArrowDown: chosen() + 1,
    Home: 0, End: rows.length }[e.key];
  if (to === undefined || e.ctrlKey || e.altKey || e.metaKey) return;
  e.preventDefault();
  move(to);
});
drawLanes();
drawGraph();
showEnds();
show(failure === null ? rows.length : ran);
</script>
</body>
</html>
"##;

/// The page where a search found no bad schedule, from the style up to the name of the file.
pub const SENTENCE_BEGIN: &str = r##"<style>
:root { color-scheme: light dark; }
body { margin: 16px; font: 15px/1.5 system-ui, sans-serif; }
p { white-space: pre-wrap; overflow-wrap: anywhere; }
</style>
<title>"##;

/// The page where a search found no bad schedule, from the name of the file up to the sentence.
pub const SENTENCE_MIDDLE: &str = " - ctxbound</title>\n</head>\n<body>\n<p>";

/// The page where a search found no bad schedule, from the sentence on.
pub const SENTENCE_END: &str = "</p>\n</body>\n</html>\n";
