//! The text of a page before and behind its data.

/// What stands before the data.
pub(crate) const HEAD: &str = r##"<!doctype html>
<html lang="en">
<head>
<meta charset="utf-8">
<meta name="viewport" content="width=device-width, initial-scale=1">
<meta name="color-scheme" content="light dark">
<meta http-equiv="Content-Security-Policy" content="default-src 'none'; style-src 'unsafe-inline'; script-src 'unsafe-inline'">
<title>A history</title>
<style>
  :root {
    color-scheme: light;
    --page: #fff; --panel: #f6f7f9; --line: #c9ced6; --text: #1b1f24; --soft: #57606a; --edge: #7a838e; --accent: #0b57d0; --onaccent: #fff; --mark: #fff3b0;
    --value: #dff3e2; --value-s: #1f7a33; --failed: #fde2df; --failed-s: #b3261e; --cancelled: #ffead1; --cancelled-s: #9a5700;
    --timedout: #f6e1f7; --timedout-s: #8a2d8f; --ready: #fff6c8; --ready-s: #7d6600; --running: #dbe9fd; --running-s: #0b57d0;
    --linked: #e6f3f7; --linked-s: #106c82; --waits: #f1f2f4; --waits-s: #6a737d;
  }
  @media screen and (prefers-color-scheme: dark) { :root:not([data-theme=light]) {
    color-scheme: dark;
    --page: #14171b; --panel: #1c2026; --line: #3d444d; --text: #e8eaed; --soft: #a8b1bb; --edge: #7d8791; --accent: #8ab4f8; --onaccent: #10243f; --mark: #5a4c00;
    --value: #12351c; --value-s: #63c77c; --failed: #4a1613; --failed-s: #ff8a80; --cancelled: #43290a; --cancelled-s: #ffb85c;
    --timedout: #3d163f; --timedout-s: #e79bea; --ready: #3a3200; --ready-s: #e3c94b; --running: #10294d; --running-s: #8ab4f8;
    --linked: #0d3039; --linked-s: #6cc7dd; --waits: #23282f; --waits-s: #929ca6;
  } }
  @media screen { :root[data-theme=dark] {
    color-scheme: dark;
    --page: #14171b; --panel: #1c2026; --line: #3d444d; --text: #e8eaed; --soft: #a8b1bb; --edge: #7d8791; --accent: #8ab4f8; --onaccent: #10243f; --mark: #5a4c00;
    --value: #12351c; --value-s: #63c77c; --failed: #4a1613; --failed-s: #ff8a80; --cancelled: #43290a; --cancelled-s: #ffb85c;
    --timedout: #3d163f; --timedout-s: #e79bea; --ready: #3a3200; --ready-s: #e3c94b; --running: #10294d; --running-s: #8ab4f8;
    --linked: #0d3039; --linked-s: #6cc7dd; --waits: #23282f; --waits-s: #929ca6;
  } }
  * { box-sizing: border-box }
  body { margin: 0; font: 14px/1.45 system-ui, sans-serif; color: var(--text); background: var(--page); height: 100vh; display: grid; grid-template-rows: auto auto 1fr auto; overflow: hidden }
  h1 { font-size: 17px; margin: 0; overflow: hidden; text-overflow: ellipsis; white-space: nowrap }
  h2 { font-size: 13px; margin: 0 }
  header { display: flex; gap: 6px 12px; align-items: center; padding: 8px 12px 4px; flex-wrap: wrap }
  .tools { margin-left: auto; display: flex; gap: 6px }
  button, input[type=search] { font: inherit; color: inherit; background: var(--page); border: 1px solid var(--edge); border-radius: 6px; padding: 3px 9px; min-height: 28px }
  button { cursor: pointer }
  button:hover { background: var(--panel) }
  button[aria-pressed=true] { background: var(--accent); border-color: var(--accent); color: var(--onaccent) }
  :focus-visible { outline: 2px solid var(--accent); outline-offset: 2px }
  .chips { display: flex; gap: 4px; flex-wrap: wrap; flex: 1 1 0; min-width: min(100%, 330px) }
  .chip { border-radius: 12px; padding: 0 8px; min-height: 24px; font-size: 12.5px; border-width: 1.5px; white-space: nowrap }
  .chip:hover { filter: brightness(.96) }
  .chip[aria-pressed=true] { outline: 2px solid var(--text); outline-offset: 1px }
  
  #verdict { padding: 1px 10px; border-radius: 6px; border: 1.5px solid var(--value-s); background: var(--value); font-weight: 600; overflow-wrap: anywhere }
  #verdict.not { border: 3px double var(--failed-s); background: var(--failed) }
  .stage.cause > rect { stroke-width: 4.5 }
  #about ol { margin: 0; padding-left: 20px }
  #bar { display: grid; grid-template-columns: auto 1fr auto; gap: 4px 10px; align-items: center; padding: 4px 12px 8px; border-bottom: 1px solid var(--line) }
  #bar .keys { display: flex; gap: 4px }
  #track { position: relative; height: 30px }
  #track canvas { position: absolute; left: 8px; width: calc(100% - 16px); height: 10px; top: 0 }
  #at { position: absolute; left: 0; bottom: 0; width: 100%; margin: 0; accent-color: var(--accent) }
  #where { font-variant-numeric: tabular-nums; width: 290px; height: 21px; contain: strict; text-align: right; font-weight: 600 }
  #said { grid-column: 1 / -1; height: 21px; contain: strict; overflow: hidden; text-overflow: ellipsis; white-space: nowrap }
  #said small { color: var(--soft); font-size: inherit }
  main { display: grid; grid-template-columns: minmax(0, 1fr) 6px var(--side, 390px); min-height: 0 }
  #view { contain: strict; position: relative; min-width: 0; min-height: 0; overflow: hidden; background: var(--panel) }
  #plan, #wires { position: absolute; inset: 0; width: 100%; height: 100% }
  #plan { cursor: grab; touch-action: none }
  #wires { transform: translateZ(0); pointer-events: none } /* a layer of its own, which isn't drawn anew where boxes change */
  #plan.drag { cursor: grabbing }
  .zoom { position: absolute; right: 10px; top: 10px; display: flex; gap: 4px }
  #side { display: grid; grid-template-rows: auto minmax(80px, 1fr) minmax(120px, 36%); min-height: 0; contain: strict; border-left: 1px solid var(--line) }
  #split { cursor: col-resize; background: var(--line) }
  #find { display: flex; gap: 6px; padding: 8px; align-items: center }
  #find input { flex: 1; min-width: 60px }
  #count { font-size: 12.5px; color: var(--soft); white-space: nowrap }
  #events { contain: strict; list-style: none; margin: 0; padding: 0; overflow: auto; border-top: 1px solid var(--line) }
  #events li { padding: 2px 8px 2px 6px; border-left: 4px solid transparent; cursor: pointer; display: grid; grid-template-columns: var(--when, 74px) 1fr; gap: 0 8px }
  #events time { text-align: right; color: var(--soft); font-variant-numeric: tabular-nums; font-size: 12.5px; padding-top: 1px }
  #events .later { color: var(--soft) }
  #events .now { background: var(--running); border-left-color: var(--accent); color: var(--text) }
  #events .hit { box-shadow: inset -4px 0 0 var(--ready-s) }
  #events .miss { display: none }
  #events .vain > span { font-style: italic }
  #events small { grid-column: 2; color: var(--soft); font-size: 12.5px }
  #events small b { font-weight: 600; color: var(--c) }
  #about { border-top: 1px solid var(--line); padding: 8px 12px; overflow: auto; contain: strict }
  #about dl { display: grid; grid-template-columns: auto 1fr; gap: 1px 10px; margin: 6px 0 0 }
  #about dt { color: var(--soft) }
  #about dd { margin: 0; overflow-wrap: anywhere }
  .link { border: 0; background: none; padding: 0; min-height: 0; color: var(--accent); text-decoration: underline; text-align: left }
  #lanes { contain: content; border-top: 1px solid var(--line); max-height: 30vh; overflow: auto; position: relative }
  #lanes header { padding: 4px 12px; position: sticky; top: 0; left: 0; background: var(--page); z-index: 1 }
  #runs { display: block; width: 100% }
  svg text { font-size: 12px; fill: var(--text) }
  svg text.soft { fill: var(--soft) }
  .stage { cursor: pointer; outline: none }
  .stage > rect { fill: var(--f); stroke: var(--c); stroke-width: 1.6 }
  .stage .glyph { fill: var(--c); font-size: 13px; font-weight: 700 }
  .stage .name { font-weight: 600 }
  .s0 { --f: var(--value); --c: var(--value-s) } .s1 { --f: var(--failed); --c: var(--failed-s) } .s2 { --f: var(--cancelled); --c: var(--cancelled-s) }
  .s3 { --f: var(--timedout); --c: var(--timedout-s) } .s4 { --f: var(--ready); --c: var(--ready-s) } .s5 { --f: var(--running); --c: var(--running-s) }
  .s6 { --f: var(--linked); --c: var(--linked-s) } .s7 { --f: var(--waits); --c: var(--waits-s) }
  .stage.s1 > rect, .stage.s3 > rect { stroke-width: 3 } .stage.s2 > rect { stroke-width: 2.6; stroke-dasharray: 7 3 }
  .stage.s4 > rect { stroke-width: 2.6 } .stage.s5 > rect { stroke-width: 2.6; stroke-dasharray: 9 3 }
  .stage.s6 > rect { stroke-dasharray: 4 3 } .stage.s7 > rect { stroke-dasharray: 2 3 }
  .chip { background: var(--f); border-color: var(--c); color: var(--text) }
  .chip i { font-style: normal; font-weight: 700; color: var(--c) }
  .chip span { display: inline-block; text-align: left; font-variant-numeric: tabular-nums }
  .chip.none { background: none; border-color: var(--line); color: var(--soft) }
  .absent { fill-opacity: .16; stroke-opacity: .16 }
  .dim { fill-opacity: .22; stroke-opacity: .22 }
  .stage.changed > rect { filter: drop-shadow(0 0 4px var(--c)) }
  .stage .ring { fill: none; stroke: none }
  .stage.chosen .ring { stroke: var(--text); stroke-width: 2.5 }
  .stage:focus-visible .ring { stroke: var(--accent); stroke-width: 4 }
  .stage .big, .stage .wide { display: none; font-size: 25px; font-weight: 700; text-anchor: middle }
  .stage .wide { font-size: 18px; font-weight: 600 }
  .wide text, .mid text, .far text { display: none } .mid .stage .big, .wide .stage .wide { display: inline }
  .far .s1 > rect, .far .s2 > rect, .far .s3 > rect { fill: var(--c) } .far .stage > rect { stroke-dasharray: none; rx: 0; shape-rendering: crispEdges }
  .edge { fill: none; stroke: var(--edge); stroke-width: 1.3 }
  .edge.isLink { stroke: var(--linked-s); stroke-dasharray: 5 4; stroke-width: 1.8 }
  .many .edge { stroke-opacity: .38 }
  .edge.near { stroke: var(--text); stroke-width: 2.4; stroke-opacity: 1 }
  .edge.cause { stroke: var(--failed-s); stroke-width: 4; stroke-opacity: 1 }
  .edge.gone { stroke-opacity: .07 }
  .run { cursor: pointer }
  .run rect { fill: var(--f); stroke: var(--c) }
  .run.off { fill-opacity: .3; stroke-opacity: .3 }
  .tick { stroke: var(--c); stroke-width: 2 }
  #hand { stroke: var(--accent); stroke-width: 2 }
  .grid { stroke: var(--line) }
  dialog { color: inherit; background: var(--page); border: 1px solid var(--edge); border-radius: 10px; max-width: 520px }
  dialog table { border-spacing: 10px 3px; text-align: left }
  kbd { border: 1px solid var(--edge); border-radius: 4px; padding: 0 5px; font: 12.5px ui-monospace, monospace; background: var(--panel) }
  .hidden { position: absolute; width: 1px; height: 1px; overflow: hidden; clip-path: inset(50%) }
  @media (max-width: 820px) {
    body { height: auto; overflow: auto; grid-template: auto auto auto auto / minmax(0, 1fr) } main, #bar { grid-template-columns: minmax(0, 1fr) }
    #split, .tools kbd { display: none } .chips { order: 1 } #bar .keys { flex-wrap: wrap } #where { width: auto; text-align: left } #said { white-space: normal; height: 42px }
    #view { height: 56vh } #side { border-left: 0; height: 70vh }
  }
  @media print {
    * { print-color-adjust: exact; -webkit-print-color-adjust: exact }
    body { display: block; height: auto; overflow: visible } #bar .keys, #track, .tools, .zoom, #find, #split, #scale, dialog { display: none !important }
    main { display: block } #view { height: 62vh; contain: none; break-inside: avoid; background: none; border: 1px solid var(--line) } #side, #events, #about, #lanes { display: block; height: auto; max-height: none; overflow: visible; contain: none; border: 0 }
    #events { columns: 2 } #events li { break-inside: avoid } #lanes { break-inside: avoid }
  }
</style>
</head>
<body>
<header>
  <h1 id="title">A history</h1><span id="verdict" role="status"></span><span id="sum" class="soft"></span>
  <div class="chips" id="chips" role="group" aria-label="How many stages are what; pressed, only those stand out"></div>
  <span class="tools"><button id="theme" aria-label="Light or dark">◐</button><button id="help" aria-haspopup="dialog">Keys <kbd>?</kbd></button></span>
</header>
<div id="bar">
  <div class="keys">
    <button data-go="first" aria-label="Before the first event">|◀</button><button data-go="-1" aria-label="One event back">◀</button>
    <button data-go="play" aria-label="Play" aria-pressed="false">Play</button><button data-go="1" aria-label="One event on">▶</button>
    <button data-go="last" aria-label="Last event">▶|</button><button data-go="bad" aria-label="Next failure, timeout or cancellation">Next ✕</button>
  </div>
  <div id="track"><canvas aria-hidden="true"></canvas><input id="at" type="range" min="0" step="1" aria-label="Event"></div>
  <output id="where" for="at"></output>
  <div id="said"></div>
</div>
<main>
  <div id="view">
    <svg id="wires" aria-hidden="true"></svg>
    <svg id="plan" role="group" aria-label="The plan. Tab enters it, arrows go from stage to stage, Enter chooses."></svg>
    <div class="zoom"><button id="follow" aria-pressed="true" title="Keep what changes in sight (f)">Follow</button><button id="in" aria-label="Larger">+</button><button id="out" aria-label="Smaller">−</button><button id="fit" aria-label="The whole plan">Fit</button></div>
  </div>
  <div id="split" role="separator" aria-orientation="vertical" aria-label="Width of the list" tabindex="0"></div>
  <section id="side" aria-label="Events and the chosen stage">
    <div id="find"><input id="q" type="search" placeholder="Search events and stages  ( / )" aria-label="Search events and stages"><span id="count" aria-live="polite"></span><button id="only" aria-pressed="false" title="List only what was found">Only these</button></div>
    <ol id="events" tabindex="0" aria-label="Events"></ol>
    <div id="about" aria-label="The chosen stage" role="region"></div>
  </section>
</main>
<section id="lanes" aria-label="Who ran what, when">
  <header><h2>Who ran what</h2><button id="scale" aria-pressed="false">By time</button><span id="scaleSaid" class="soft"></span></header>
  <svg id="runs" role="img"></svg>
</section>
<div class="hidden" aria-live="polite" id="live"></div>
<dialog id="keys" aria-label="Keys"><h2>Keys</h2><table>
<tr><td><kbd>←</kbd> <kbd>→</kbd><td>one event; with <kbd>Shift</kbd> ten<tr><td><kbd>Home</kbd> <kbd>End</kbd><td>before the first, behind the last<tr><td><kbd>Space</kbd><td>play, pause
<tr><td><kbd>x</kbd> <kbd>X</kbd><td>next, last failure, timeout or cancellation<tr><td><kbd>j</kbd> <kbd>k</kbd><td>next, last event of the chosen stage
<tr><td><kbd>/</kbd><td>search; <kbd>Enter</kbd>, <kbd>Shift Enter</kbd> next, last hit<tr><td><kbd>Esc</kbd><td>ends the search, then the choice
<tr><td><kbd>+</kbd> <kbd>−</kbd> <kbd>0</kbd><td>larger, smaller, the whole plan<tr><td><kbd>f</kbd><td>follow<tr><td>in the plan <kbd>← ↑ → ↓</kbd><td>the next stage that way; <kbd>Enter</kbd> chooses
</table><form method="dialog"><button autofocus>Close</button></form></dialog>
<noscript>This page needs JavaScript, which stands in it.</noscript>
<script type="application/json" id="data">"##;

/// What stands behind it.
pub(crate) const TAIL: &str = r##"</script>
<script>
"use strict";
const D = JSON.parse(document.getElementById("data").textContent, (_, v) => typeof v === "string" ? v.replace(/[\u0000-\u001f\u007f-\u009f\u200e\u200f\u2028-\u202e\u2066-\u2069]/g, "�") : v), S = D.stages, E = D.events, N = E.length;
const el = id => document.getElementById(id), NS = "http://www.w3.org/2000/svg", [PW, PH, W, H] = D.size;
const WORDS = ["value", "failed", "cancelled", "timed out", "ready", "running", "linked", "waiting"], GLYPHS = ["✓", "✕", "⊘", "◷", "●", "▶", "⇢", "…"];
const make = (name, attrs, parent, text) => { const it = document.createElementNS(NS, name); for (const k in attrs) it.setAttribute(k, attrs[k]); if (text !== undefined) it.textContent = text; return parent ? parent.appendChild(it) : it };
const html = (name, props, ...kids) => { const it = Object.assign(document.createElement(name), props); it.append(...kids); return it };
// What there is to say of a state behind its word.
const rest = (s, t) => t === WORDS[s] || !t ? "" : t.startsWith(WORDS[s] + ", ") ? t.slice(WORDS[s].length) : ", " + t;
// A text that is cut where it is wider than so many points in this font.
const pen = document.createElement("canvas").getContext("2d"), family = getComputedStyle(document.body).fontFamily;
const cut = (t, wide, font = "12px") => {
  pen.font = font + " " + family; if (pen.measureText(t).width <= wide) return t;
  let a = 0, b = t.length; while (a < b) { const m = a + b + 1 >> 1; pen.measureText(t.slice(0, m) + "…").width <= wide ? a = m : b = m - 1 }
  return t.slice(0, a).replace(/[\ud800-\udbff]$/, "") + "…";
};
const clamp = (v, a, b) => Math.max(a, Math.min(b, v));
const caller = who => D.lanes[who] || "caller " + who;
const name = n => n + " " + S[n][0];
const time = us => us < 1000 ? us + " µs" : us < 1e7 ? (us / 1000).toFixed(us < 1e5 ? 2 : 1) + " ms" : (us / 1e6).toFixed(2) + " s";
const at = k => D.timed && k ? E[k - 1][5] : 0;
const still = matchMedia("(prefers-reduced-motion: reduce)").matches;

// What each stage is, from which event on.
const past = S.map(() => []), of = S.map(() => []);
D.start.forEach(([n, s, t]) => past[n].push([0, s, t]));
E.forEach((e, k) => { if (e[1] !== null) of[e[1]].push(k + 1); e[4].forEach(([n, s, t]) => { past[n].push([k + 1, s, t]); if (e[1] !== n) of[n].push(k + 1) }) });
const is = (n, k) => { const p = past[n]; let a = 0, b = p.length; while (a < b) { const m = a + b >> 1; p[m][0] <= k ? a = m + 1 : b = m } return a ? p[a - 1] : null };
const worst = e => e[4].reduce((w, c) => c[1] && c[1] < 4 && (w < 0 || c[1] < w) ? c[1] : w, -1);
const bad = []; E.forEach((e, k) => { if (worst(e) > 0) bad.push(k + 1) });
const searched = E.map(e => (e[2] + " " + e[4].map(c => name(c[0]) + " " + WORDS[c[1]] + " " + c[2]).join(" ")).toLowerCase());
const stageText = S.map((s, n) => (name(n) + " " + s[1]).toLowerCase());

// ---- The plan ----
const plan = el("plan"), wires = el("wires"), world = make("g", {}, plan), edgeLayer = make("g", {class: D.edges.length > 150 ? "many" : ""}, wires), boxLayer = make("g", {class: S.length > 400 ? "far" : ""}, world);
const edges = D.edges.map(([a, b, place]) => {
  const [ax, ay] = [S[a][3], S[a][4]], [bx, by] = [S[b][3], S[b][4]];
  let d;
  if (a === b) d = `M${ax + W},${ay + 10}c28,-14 28,${H + 8} 0,${H - 20}`;
  else if (bx <= ax + W / 2) {                       // upwards, downwards, or to the next line
    const up = by < ay, y = ay + (up ? 0 : H), v = by + (up ? H : 0), bend = Math.max(24, Math.abs(v - y) / 2);
    d = Math.abs(bx - ax) < 8 ? `M${ax + W / 2},${y}C${ax + W / 2},${y + (up ? -bend : bend)} ${bx + W / 2},${v + (up ? bend : -bend)} ${bx + W / 2},${v}`
      : `M${ax + W},${ay + H / 2}C${ax + W + 60},${ay + H / 2} ${ax + W + 20},${(y + v) / 2} ${(ax + bx + W) / 2},${(y + v) / 2}S${bx - 60},${by + H / 2} ${bx},${by + H / 2}`;
  } else {
    const x = ax + W, y = ay + H / 2; d = `M${x},${y}`;
    const bend = Math.min(60, Math.max(22, (bx - x) / 2)); d += `C${x + bend},${y} ${bx - bend},${by + H / 2} ${bx},${by + H / 2}`;
  }
  return {a, b, place, path: make("path", {d, class: "edge" + (place ? " isLink" : "")}, edgeLayer)};
});
const near = S.map(() => []); edges.forEach(e => { near[e.a].push(e); near[e.b].push(e) });
const shape = form => form === "source" ? H / 2 : ["handle", "whenComplete", "exceptionally"].includes(form) ? 14 : 5;
const boxes = S.map((s, n) => {
  const g = make("g", {class: "stage", transform: `translate(${s[3]},${s[4]})`, tabindex: -1, role: "button", "data-n": n}, boxLayer);
  make("rect", {width: W, height: H, rx: shape(s[1])}, g);
  return g;
});
const dressed = S.map(() => false);
const dress = n => {
  const s = S[n], g = boxes[n]; if (dressed[n]) return; dressed[n] = true;
  const pad = shape(s[1]) > 14 ? 14 : 8;
  make("text", {x: pad, y: 16, class: "name"}, g, cut(name(n), W - pad - 7, "600 12px"));
  make("text", {x: pad, y: 32, class: "glyph"}, g); make("text", {x: pad + 17, y: 32}, g);
  make("rect", {x: -4, y: -4, width: W + 8, height: H + 8, rx: shape(s[1]) + 4, class: "ring"}, g); make("text", {x: W / 2, y: 29, class: "big"}, g, n); make("text", {x: W / 2, y: 26, class: "wide"}, g); make("title", {}, g);
  shown[n] = null; paint(n, place, new Set(glow));
};
const LARGE = S.length > 700;
const dressAll = () => { if (LARGE && view.k < .2) return; const [w, h] = room(); S.forEach((s, n) => { const x = s[3] * view.k + view.x, y = s[4] * view.k + view.y; if (!dressed[n] && (!LARGE || (x > -300 && y > -200 && x < w + 200 && y < h + 200))) dress(n) }) };
let view = {x: 0, y: 0, k: 1}, chosen = null, only = null, place = N, follow = true, playing = 0, hits = [], found = new Set();
const sizeOf = k => k < .2 ? "far" : k < .4 ? "mid" : k < .62 ? "wide" : "";
const draw = () => { [world, edgeLayer].forEach(g => g.setAttribute("transform", `translate(${view.x},${view.y}) scale(${view.k})`)); boxLayer.setAttribute("class", sizeOf(view.k)); if (ready) dressAll() };
let ready = false, sized; const room = () => { if (!sized) { const r = plan.getBoundingClientRect(); sized = [r.width || 900, r.height || 500] } return sized };
new ResizeObserver(() => { sized = null; if (fitted) fit(); keepInSight(place) }).observe(plan);
let fitted = true;
const fit = () => { fitted = true; const [w, h] = room(), k = Math.min(1.25, (w - 40) / PW, (h - 70) / PH); view = {k, x: (w - PW * k) / 2, y: 50 + (h - 70 - PH * k) / 2}; draw() };
const zoom = (by, cx, cy) => { fitted = false; const [w, h] = room(); cx ??= w / 2; cy ??= h / 2; const k = clamp(view.k * by, .03, 3); view = {k, x: cx - (cx - view.x) * k / view.k, y: cy - (cy - view.y) * k / view.k}; draw() };
const reveal = (n, centre) => {
  const [w, h] = room(), k = Math.max(view.k, centre ? .62 : view.k), x = S[n][3] * k + view.x, y = S[n][4] * k + view.y;
  if (!centre && x > 10 && y > 10 && x + W * k < w - 10 && y + H * k < h - 10) return;
  fitted = false; view = {k, x: w / 2 - (S[n][3] + W / 2) * k, y: h / 2 - (S[n][4] + H / 2) * k}; draw();
};
plan.addEventListener("wheel", e => { e.preventDefault(); const r = plan.getBoundingClientRect(); e.ctrlKey || !e.shiftKey ? zoom(Math.exp(-e.deltaY * .0016), e.clientX - r.left, e.clientY - r.top) : (view.x -= e.deltaY, draw()) }, {passive: false});
const touches = new Map(); let moved = 0;
plan.addEventListener("pointerdown", e => { touches.set(e.pointerId, [e.clientX, e.clientY]); moved = 0 });
plan.addEventListener("pointermove", e => {
  const was = touches.get(e.pointerId); if (!was) return;
  if (touches.size === 2) { const [p, q] = [...touches.values()], r = plan.getBoundingClientRect(), d = Math.hypot(p[0] - q[0], p[1] - q[1]); touches.set(e.pointerId, [e.clientX, e.clientY]); const [s, t] = [...touches.values()]; zoom(Math.hypot(s[0] - t[0], s[1] - t[1]) / (d || 1), (s[0] + t[0]) / 2 - r.left, (s[1] + t[1]) / 2 - r.top); return }
  moved += Math.abs(e.clientX - was[0]) + Math.abs(e.clientY - was[1]);
  if (moved > 4) { plan.setPointerCapture(e.pointerId); plan.classList.add("drag"); fitted = false; view.x += e.clientX - was[0]; view.y += e.clientY - was[1]; draw() }
  touches.set(e.pointerId, [e.clientX, e.clientY]);
});
const lift = e => { touches.delete(e.pointerId); plan.classList.remove("drag") };
plan.addEventListener("pointerup", lift); plan.addEventListener("pointercancel", lift);
plan.addEventListener("click", e => { if (moved > 4) return; const g = e.target.closest(".stage"); choose(g ? +g.dataset.n : null) });

// ---- The lanes ----
const runs = el("runs"), LANE = 22; let byTime = D.timed, hand, ends;
const seen = [...new Set(E.map(e => e[0]))].sort((a, b) => a - b);
let runsWide = 900;
// Calls of one caller that overlap stand below one another in its lane, in up to eight lines.
const lines = new Map(seen.map(who => [who, []])), line = D.runs.map(([who, , from, to]) => { const ends = lines.get(who); let k = ends.findIndex(end => end <= from); if (k < 0) k = Math.min(ends.length, 7); ends[k] = to ?? N + 1; return k });
const tops = []; let lanesHigh = 0; seen.forEach(who => { tops.push(lanesHigh); lanesHigh += LANE * Math.max(1, lines.get(who).length) });
const X = k => { const wide = runsWide, left = 104, right = wide - 14; return byTime ? left + (right - left) * at(k) / (ends || 1) : left + (right - left) * k / (N + 1) };
const lanes = () => {
  runs.textContent = ""; ends = D.timed && N ? Math.max(1, E[N - 1][5]) : 1;
  const wide = runsWide = runs.clientWidth || 900, high = lanesHigh + 24;
  runs.setAttribute("viewBox", `0 0 ${wide} ${high}`); runs.style.height = high + "px";
  const marks = clamp(Math.min((wide - 118) / 70 | 0, byTime ? ends : N), 1, 5);
  for (let k = 0; k <= marks; k++) { const m = Math.round((byTime ? ends : N) * k / marks), x = byTime ? 104 + (wide - 118) * m / ends : X(m); make("line", {x1: x, x2: x, y1: 0, y2: high - 18, class: "grid"}, runs); make("text", {x, y: high - 5, "text-anchor": k ? x < wide - 24 ? "middle" : "end" : "start", class: "soft"}, runs, byTime ? time(m) : m) }
  seen.forEach((who, k) => { make("line", {x1: 0, x2: wide, y1: tops[k + 1] ?? lanesHigh, y2: tops[k + 1] ?? lanesHigh, class: "grid"}, runs); make("text", {x: 12, y: tops[k] + 15}, runs, cut(caller(who), 88)) });
  const lane = new Map(seen.map((who, k) => [who, tops[k]]));
  D.runs.forEach((r, k) => {
    const [who, n, from, to, late] = r, x = X(from), w = Math.max(X(to ?? N) - x, 2.5), last = to ? E[to - 1][4].find(c => c[0] === n) : null;
    const s = late ? 2 : !to ? 5 : last ? last[1] : 0, g = make("g", {class: "run s" + s, "data-k": from}, runs);
    const y = lane.get(who) + line[k] * LANE; make("rect", {x, y: y + 3, width: w, height: LANE - 6, rx: 3, "stroke-dasharray": late ? "4 2" : ""}, g);
    if (w > 34) make("text", {x: x + 4, y: y + 15}, g, cut(name(n), w - 8));
    make("title", {}, g, `${caller(who)} ran ${name(n)}` + (!to ? ", not finished" : D.timed ? " for " + time(at(to) - at(from)) : "") + (late ? ", too late" : ""));
    g.onclick = () => { choose(n); go(from) }; r.g = g; r.off = false;
  });
  E.forEach((e, k) => {
    if (e[7] && !e[3]) return;
    const x = X(k + 1), y = lane.get(e[0]), g = make("g", {class: "run s" + (worst(e) > 0 ? worst(e) : e[4].length ? 0 : 7)}, runs);
    make("line", {x1: x, x2: x, y1: y + 5, y2: y + LANE - 5, class: "tick"}, g); make("title", {}, g, e[2]); g.onclick = () => { choose(e[1]); go(k + 1) };
  });
  hand = make("line", {id: "hand", y1: 0, y2: high - 18}, runs);
  runs.setAttribute("aria-label", `${D.runs.length} runs of functions by ${seen.length} callers`);
  el("scale").textContent = byTime ? "By time" : "By event"; el("scale").hidden = !D.timed; el("scaleSaid").textContent = byTime ? "Bars: claim to finish. Ticks: other calls." : "One step an event. Bars: claim to finish. Ticks: other calls.";
};
el("scale").onclick = () => { byTime = !byTime; lanes(); show() };

// ---- The list ----
const list = el("events"), items = [], MOST = 400; if (!D.timed) list.style.setProperty("--when", "38px"); let from = 0, till = 0, listing = null;
const item = k => {
  if (items[k]) return items[k]; const e = E[k];
  const li = html("li", {onclick: () => { choose(e[1]); go(k + 1) }}, html("time", {textContent: D.timed ? time(e[5]) : k + 1}), html("span", {textContent: e[2]}));
  if (e[6]) li.append(html("small", {textContent: "⚠ " + e[6]}));
  e[4].forEach(([n, s, t]) => { if (s < 4 || (n !== e[1] && s === 4)) { const b = html("b", {textContent: GLYPHS[s] + " " + WORDS[s]}), small = html("small", {className: "s" + s}, n === e[1] ? "it is " : name(n) + ": ", b, s < 4 ? rest(s, t) : ""); li.append(small) } });
  if (e[3]) li.classList.add("vain");
  return items[k] = mark(li, k);
};
const mark = (li, k) => { const c = li.classList; c.toggle("now", k === place - 1); c.toggle("later", k >= place); c.toggle("hit", !!hits.set && hits.set.has(k + 1)); k === place - 1 ? li.setAttribute("aria-current", "step") : li.removeAttribute("aria-current"); return li };
// The part of the list round an event.
const listRound = k => {
  const all = listing || E, length = all.length, at = listing ? Math.max(0, listing.findIndex(p => p >= k)) : Math.max(0, k - 1);
  from = Math.max(0, Math.min(at - MOST / 2, length - MOST)); till = Math.min(length, from + MOST);
  const part = []; for (let m = from; m < till; m++) part.push(mark(item(listing ? listing[m] - 1 : m), listing ? listing[m] - 1 : m)); list.replaceChildren(...part);
};

// The same, but where jump follows jump, as while the slider is dragged: then once that rests.
let relisting, hurry = -1e9;
const relist = k => { const now = performance.now(); clearTimeout(relisting); if (now - hurry > 150) listRound(k); else relisting = setTimeout(() => { listRound(place); keepInSight(place) }, 150); hurry = now };

// ---- The chosen stage ----
const stageLink = n => html("button", {className: "link", textContent: name(n), onclick: () => { choose(n); reveal(n, true) }});
const chainOf = n => { const list = []; if (n === null) return list; const now = is(n, place); if (!now || now[1] > 3) return list; for (let m = n; m !== null && list.length < 4096 && !list.includes(m); m = S[m][6]) list.push(m); return list };
let chain = [];
const about = () => {
  const box = el("about"); box.textContent = "";
  if (chosen === null) { box.append(html("p", {style: "margin:0;color:var(--soft)", textContent: "Choose a stage in the plan, or an event in the list."})); return }
  const n = chosen, s = S[n], now = is(n, place), dl = html("dl", {}), row = (k, ...v) => dl.append(html("dt", {textContent: k}), html("dd", {}, ...v));
  const joined = ns => ns.flatMap((m, k) => k ? [", ", stageLink(m)] : [stageLink(m)]);
  row("now", html("span", {className: "chip s" + (now ? now[1] : 7)}, html("i", {textContent: now ? GLYPHS[now[1]] : ""}), now ? " " + WORDS[now[1]] : "not there yet"), now ? rest(now[1], now[2]).replace(/^, /, " ") : "");
  row("form", s[1]);
  if (s[2].length) row("takes from", ...joined([...new Set(s[2])]));
  const links = near[n].filter(e => e.place && e.b === n).map(e => e.a), behind = [...new Set(near[n].filter(e => e.a === n).map(e => e.b))];
  if (links.length) row("waits for", ...joined(links));
  if (behind.length) row("behind it", ...joined(behind.slice(0, 12)), behind.length > 12 ? ` and ${behind.length - 12} more` : "");
  if (chain.length > 1 || (chain.length && now[1] > 0)) {
    const steps = html("ol", {id: "why"});
    chain.forEach((m, k) => { const p = S[m][8], li = html("li", {}, stageLink(m)); if (p) li.append(": ", html("button", {className: "link", textContent: `event ${p}`, onclick: () => go(p)}), k === chain.length - 1 ? ", " + E[p - 1][2] : ""); steps.append(li) });
    row("why", steps);
  }
  s[7].forEach(t => row("limit", t));
  D.runs.filter(r => r[1] === n).forEach(r => { const ready = past[n].find(p => p[1] === 4); row("ran", `on ${caller(r[0])}, events ${r[2]} to ${r[3] ?? "…"}` + (D.timed && r[3] ? `, ${time(at(r[3]) - at(r[2]))}` : "") + (D.timed && ready ? `, ready for ${time(at(r[2]) - at(ready[0]))} before` : "") + (r[4] ? ", too late" : "")) });
  box.append(html("h2", {textContent: name(n)}), dl);
};

// ---- All of it, at a place ----
let shown = [], listed = 0, first = true, counted = "", noted, painted = -1, stale = true, drawn = "", glow = [], chained = "", counts = WORDS.map(() => 0);
const state = S.map(() => -1);
const grows = new Set([...S.map(s => s[5]), ...D.edges.map(e => e[2])]); grows.delete(0);
const paint = (n, k, changed) => {
  const s = S[n], now = s[5] <= k ? is(n, k) : null, c = now ? now[1] : 7, box = boxes[n], was = state[n], will = now ? c : -1;
  if (was !== will) { if (was >= 0) counts[was]--; if (will >= 0) counts[will]++; state[n] = will }
  const dim = (only !== null && c !== only) || (hits.query && !found.has(n));
  const cls = `stage s${c}${now ? "" : " absent"}${changed.has(n) ? " changed" : ""}${n === chosen ? " chosen" : ""}${chain.length > 1 && chain.includes(n) ? " cause" : ""}${dim ? " dim" : ""}`, text = now ? c < 4 ? now[2] : c === 7 || c === 6 ? now[2] || WORDS[c] : WORDS[c] : "";
  const key = cls + "|" + text; if (shown[n] === key) return; shown[n] = key;
  const said = `${name(n)}, ${s[1]}, ${now ? WORDS[c] + (text && text !== WORDS[c] ? ": " + text : "") : "not there yet"}`; box.setAttribute("class", cls); box.setAttribute("aria-label", said); if (!dressed[n]) return;
  box.children[2].textContent = now ? GLYPHS[c] : ""; box.children[5].textContent = n + (now ? " " + GLYPHS[c] : ""); box.children[6].textContent = cut((now ? GLYPHS[c] + " " : "") + name(n), W - 12, "600 18px"); box.children[3].textContent = cut(text, W - (s[1] === "source" ? 42 : 32));
  box.lastChild.textContent = said;
};
const keepInSight = k => { const li = k ? items[k - 1] : null; if (li && li.isConnected) { const t = li.offsetTop - list.offsetTop; if (t < list.scrollTop || t + li.offsetHeight > list.scrollTop + list.clientHeight) list.scrollTop = t - list.clientHeight / 2 } else if (!k) list.scrollTop = 0 };
const show = () => {
  const k = place, e = k ? E[k - 1] : null, changed = new Set(e ? e[4].map(c => c[0]) : []);
  chain = chainOf(chosen);
  const mood = [only, hits.query || "", [...found].length, chosen, chain].join("|"), low = Math.min(k, painted), high = Math.max(k, painted);
  if (stale || mood !== drawn || high - low > 300) S.forEach((_, n) => paint(n, k, changed));
  else { const some = new Set([...glow, ...changed]); for (let m = low; m < high; m++) E[m][4].forEach(c => some.add(c[0])); some.forEach(n => paint(n, k, changed)) }
  let grown = stale || mood !== drawn || high - low > 300; for (let m = low + 1; !grown && m <= high; m++) grown = grows.has(m);
  const pairs = new Set(); for (let m = 1; m < chain.length; m++) pairs.add(chain[m] + ">" + chain[m - 1]);
  if (grown) edges.forEach(e => { const cls = "edge" + (e.place ? " isLink" : "") + (e.a === chosen || e.b === chosen ? " near" : "") + (pairs.has(e.a + ">" + e.b) ? " cause" : "") + (S[e.b][5] > k || e.place > k ? " gone" : ""); if (e.cls !== cls) e.path.setAttribute("class", e.cls = cls) });
  painted = k; stale = false; drawn = mood; glow = [...changed];
  const spot = listing ? listing.indexOf(k) : k - 1;
  if (first || (k && spot >= 0 && (spot < from || spot >= till)) || Math.abs(k - listed) > MOST) relist(k); else for (let n = Math.max(0, Math.min(k, listed) - 1); n < Math.min(N, Math.max(k, listed) + 1); n++) if (items[n]) mark(items[n], n);
  if (listed !== k || first) keepInSight(k);
  listed = k; first = false;
  el("at").value = k; el("at").setAttribute("aria-valuetext", e ? `${k} of ${N}: ${e[2]}` : "before the first event");
  el("where").textContent = `event ${k} of ${N}` + (D.timed ? ` · ${time(at(k))}` : "");
  el("said").textContent = ""; if (e) { el("said").append(e[2]); const ended = e[4].filter(c => c[1] < 4); if (ended.length) el("said").append(html("small", {textContent: " → " + ended.slice(0, 3).map(c => `${name(c[0])}: ${c[1] ? WORDS[c[1]] + rest(c[1], c[2]) : c[2]}`).join("; ") + (ended.length > 3 ? ` and ${ended.length - 3} more` : "")})) }
  const x = X(k); hand.setAttribute("x1", x); hand.setAttribute("x2", x);
  D.runs.forEach(r => { const off = r[2] > k; if (r.off !== off) r.g.classList.toggle("off", r.off = off) });
  if (counted !== (counted = counts + "|" + only)) [...el("chips").children].forEach((b, s) => { b.lastChild.textContent = counts[s]; b.classList.toggle("none", !counts[s]); b.setAttribute("aria-pressed", only === s) });
  about(); clearTimeout(noted); noted = setTimeout(() => history.replaceState(null, "", `#event=${k}` + (chosen === null ? "" : `&stage=${chosen}`)), 120);
};
let speaks;
const go = k => {
  place = clamp(k, 0, N); const e = place ? E[place - 1] : null;
  if (follow && e) { const n = e[1] ?? (e[4][0] || [null])[0]; if (n !== null) reveal(n) }
  show(); clearTimeout(speaks); if (!playing) speaks = setTimeout(() => el("live").textContent = e ? `${place}: ${e[2]}` : "before the first event", 250);
};
const choose = n => { chosen = n; S.forEach((_, m) => boxes[m].setAttribute("tabindex", m === (n ?? 0) ? 0 : -1)); show() };
const nextOf = (list, d) => d > 0 ? list.find(k => k > place) : [...list].reverse().find(k => k < place);
const play = on => { clearInterval(playing); playing = on ? setInterval(() => place < N ? go(place + 1) : play(false), still ? 900 : clamp(12000 / N, 60, 700)) : 0; const b = document.querySelector("[data-go=play]"); b.setAttribute("aria-pressed", !!on); b.setAttribute("aria-label", on ? "Pause" : "Play"); if (on && place === N) go(0) };
document.querySelectorAll("[data-go]").forEach(b => b.onclick = () => { const g = b.dataset.go; g === "play" ? play(!playing) : go(g === "first" ? 0 : g === "last" ? N : g === "bad" ? nextOf(bad, 1) ?? bad[0] ?? place : place + +g) });
el("at").max = N; el("at").oninput = () => go(+el("at").value);
el("in").onclick = () => zoom(1.3); el("out").onclick = () => zoom(1 / 1.3); el("fit").onclick = fit;
const setFollow = on => { follow = on; el("follow").setAttribute("aria-pressed", on) }; el("follow").onclick = () => setFollow(!follow);
WORDS.forEach((w, s) => el("chips").append(html("button", {className: "chip s" + s, onclick: () => { only = only === s ? null : s; show() }}, html("i", {textContent: GLYPHS[s]}), ` ${w} `, html("span", {style: `min-width: ${String(S.length).length}ch`}))));

// ---- Search ----
const search = () => {
  const q = el("q").value.trim().toLowerCase(); found = new Set(); hits = []; hits.query = q;
  if (q) { S.forEach((_, n) => { if (stageText[n].includes(q) || past[n].some(p => (WORDS[p[1]] + " " + p[2]).toLowerCase().includes(q) && p[1] < 4)) found.add(n) }); E.forEach((e, k) => { if (searched[k].includes(q)) hits.push(k + 1) }) }
  hits.set = new Set(hits); listing = q && el("only").getAttribute("aria-pressed") === "true" ? [...hits] : null; listRound(place);
  el("count").textContent = q ? `${hits.length} events, ${found.size} stages` : ""; show();
};
el("q").oninput = search; el("only").onclick = () => { const b = el("only"); b.setAttribute("aria-pressed", b.getAttribute("aria-pressed") !== "true"); search() };

// ---- Keys ----
const step = (n, key) => {                        // the nearest stage that way
  const [x, y] = [S[n][3], S[n][4]]; let best = null, least = Infinity;
  S.forEach((s, m) => { if (m === n || s[5] > place) return; const dx = s[3] - x, dy = s[4] - y, a = key === "ArrowRight" ? dx : key === "ArrowLeft" ? -dx : key === "ArrowDown" ? dy : -dy, o = key === "ArrowRight" || key === "ArrowLeft" ? Math.abs(dy) : Math.abs(dx); if (a <= 0) return; const far = a + o * 2.5; if (far < least) { least = far; best = m } });
  return best;
};
plan.addEventListener("keydown", e => {
  const g = e.target.closest(".stage"); if (!g) return; const n = +g.dataset.n;
  if (e.key === "Enter" || e.key === " ") choose(n);
  else if (e.key.startsWith("Arrow")) { const to = step(n, e.key); if (to !== null) { g.setAttribute("tabindex", -1); boxes[to].setAttribute("tabindex", 0); reveal(to); boxes[to].focus() } }
  else return;
  e.preventDefault(); e.stopPropagation();
});
addEventListener("keydown", e => {
  const t = e.target, inText = t.id === "q", key = e.key;
  if (e.ctrlKey || e.metaKey || e.altKey || el("keys").open) return;
  if (inText) { if (key === "Escape") { el("q").value = ""; search(); t.blur() } else if (key === "Enter") { const k = nextOf(hits, e.shiftKey ? -1 : 1) ?? (e.shiftKey ? hits[hits.length - 1] : hits[0]); if (k) { choose(E[k - 1][1]); go(k) } } return }
  if (t.id === "split" && key.startsWith("Arrow")) { widen((key === "ArrowLeft" ? 20 : -20)); e.preventDefault(); return }
  const by = e.shiftKey ? 10 : 1, own = chosen === null ? [] : of[chosen];
  const act = {ArrowLeft: () => go(place - by), ArrowRight: () => go(place + by), Home: () => go(0), End: () => go(N), "/": () => el("q").focus(), "?": () => el("keys").showModal(), x: () => go(nextOf(bad, 1) ?? place), X: () => go(nextOf(bad, -1) ?? place),
    j: () => go(nextOf(own, 1) ?? place), k: () => go(nextOf(own, -1) ?? place), "+": () => zoom(1.3), "=": () => zoom(1.3), "-": () => zoom(1 / 1.3), "0": fit, f: () => setFollow(!follow), Escape: () => choose(null)}[key];
  if (key === " " && t.tagName !== "BUTTON") { play(!playing); e.preventDefault() } else if (act) { act(); e.preventDefault() }
});
el("help").onclick = () => el("keys").showModal();
el("theme").onclick = () => { const r = document.documentElement, dark = r.dataset.theme ? r.dataset.theme === "dark" : matchMedia("(prefers-color-scheme: dark)").matches; r.dataset.theme = dark ? "light" : "dark"; strip() };
let side = 390; const widen = by => { side = clamp(side + by, 240, innerWidth - 320); document.querySelector("main").style.setProperty("--side", side + "px"); lanes(); show() };
el("split").onpointerdown = e => { el("split").setPointerCapture(e.pointerId); el("split").onpointermove = m => widen(-m.movementX) }; el("split").onpointerup = () => el("split").onpointermove = null;

// ---- Where something ended badly, over the slider ----
const strip = () => {
  const c = document.querySelector("#track canvas"), w = c.width = c.clientWidth * devicePixelRatio, h = c.height = 10 * devicePixelRatio, g = c.getContext("2d"), css = getComputedStyle(document.documentElement);
  const colour = ["value", "failed", "cancelled", "timedout"].map(v => css.getPropertyValue(`--${v}-s`)), one = Math.max(devicePixelRatio, Math.min(w / N * .7, 6 * devicePixelRatio));
  [0, 3, 2, 1].forEach(s => E.forEach((e, k) => { const b = worst(e), is = b > 0 ? b : e[4].some(c => c[1] === 0) ? 0 : -1; if (is === s) { g.fillStyle = colour[s]; g.fillRect((k + 1) / N * w - one / 2, s ? 0 : h * .55, one, s ? h : h * .45) } }));
};
// ---- On paper: the whole plan, and the list round the event ----
addEventListener("beforeprint", () => {
  const k = Math.min(1, 700 / PW); if (!LARGE) S.forEach((_, n) => dress(n));
  [world, edgeLayer].forEach(g => g.removeAttribute("transform")); [plan, wires].forEach(it => it.setAttribute("viewBox", `-8 -8 ${PW + 16} ${PH + 16}`)); boxLayer.setAttribute("class", sizeOf(k));
  if (N <= 1500) list.replaceChildren(...E.map((_, k) => mark(item(k), k)));
});
addEventListener("afterprint", () => { [plan, wires].forEach(it => it.removeAttribute("viewBox")); draw(); listRound(place) });
addEventListener("resize", () => { lanes(); strip(); if (fitted) fit(); show() });
const hash = k => +(location.hash.match(new RegExp(k + "=(\\d+)")) || [0, NaN])[1];
place = clamp(isNaN(hash("event")) ? N : hash("event"), 0, N); chosen = hash("stage") < S.length ? hash("stage") : null;
el("sum").textContent = `${S.length} stages, ${N} events` + (D.timed && N ? `, ${time(E[N - 1][5])}` : "");
el("title").textContent = document.title = D.name; el("verdict").textContent = D.fits ? "✓ " + (D.verdict === "fits" ? "fits one graph" : D.verdict) : "✕ doesn't fit: " + D.verdict; el("verdict").className = D.fits ? "" : "not";
fit(); lanes(); strip(); choose(chosen); ready = true; dressAll(); if (chosen !== null && view.k < .58) reveal(chosen, true);
</script>
</body>
</html>
"##;
