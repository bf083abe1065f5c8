//! The style of the page, as it is sent. make/page.py writes this file of what is in page/.

/// Its bytes: CSS in ASCII.
pub const STYLE: &[u8] = br##":root {
  --ink: #1c2430; --soft: #596475; --line: #dde1e7; --faint: #eef0f4; --ground: #f3f4f7; --card: #fff; --field: #fff; --edge: #7f8998;
  --accent: #1e5bc6; --accent-hover: #174ba6; --on-accent: #fff; --chosen: #e9f0fd; --hover: #f2f5fa; --focus: #2f7bf0;
  --good: #17734a; --good-ground: #e3f4ea; --warn: #7d5200; --warn-ground: #fdf1d6; --bad: #a3202b; --bad-ground: #fbe4e6; --idle-ground: #e9ecf1;
  --head: #1d2735; --head-hover: #28344a; --head-ink: #fff; --head-soft: #c9d2de;
}
@media (prefers-color-scheme: dark) {
  :root {
    --ink: #e6eaf0; --soft: #a3aebd; --line: #39424f; --faint: #2b333e; --ground: #14181e; --card: #1e242c; --field: #161b21; --edge: #76849a;
    --accent: #356fd6; --accent-hover: #2f68cc; --on-accent: #fff; --chosen: #243452; --hover: #29313c; --focus: #7fb0ff;
    --good: #7fd6a8; --good-ground: #173728; --warn: #f0c674; --warn-ground: #3d3113; --bad: #ff9aa2; --bad-ground: #46191e; --idle-ground: #333c48;
    --head: #0d1117; --head-hover: #1e2733; --head-ink: #fff; --head-soft: #b8c2cf;
  }
}
* { box-sizing: border-box; }
[hidden] { display: none !important; }
body {
  margin: 0; background: var(--ground); color: var(--ink);
  font: 15px/1.45 system-ui, "Segoe UI", Roboto, "Liberation Sans", "DejaVu Sans", sans-serif;
}
p { margin: 6px 0; }
a { color: var(--accent); }
@media (prefers-color-scheme: dark) { a { color: #8ab4ff; } }
:focus-visible { outline: 3px solid var(--focus); outline-offset: 1px; }
h2:focus, main:focus { outline: none; }

header {
  background: var(--head); color: var(--head-ink); display: flex; flex-wrap: wrap; align-items: center; gap: 0 18px; padding: 0 20px;
  min-height: 54px; position: sticky; top: 0; z-index: 8;
}
html { scroll-padding: 64px 0 44px; }
header h1 { font-size: 18px; margin: 0; letter-spacing: .02em; }
header nav { display: flex; gap: 2px; align-self: stretch; }
header nav a {
  color: var(--head-soft); text-decoration: none; padding: 0 14px; display: flex; align-items: center; min-height: 54px;
  border-bottom: 3px solid transparent; border-top: 3px solid transparent;
}
header nav a:hover { color: var(--head-ink); background: var(--head-hover); }
header nav a[aria-current] { color: var(--head-ink); border-bottom-color: #6fa3ff; font-weight: 600; }
header nav a:focus-visible, header button:focus-visible { outline-offset: -3px; }
header .who { margin-left: auto; display: flex; align-items: center; gap: 8px; color: var(--head-soft); font-size: 14px; }
header form { display: flex; gap: 6px; } header input { width: 9.5em; background: #2b384e; border-color: #7a8aa5; color: #fff; }
header input::placeholder { color: #b3bfce; }
header button { background: transparent; color: var(--head-soft); border-color: #7a8aa5; padding: 2px 9px; }
header button:hover { background: var(--head-hover); color: var(--head-ink); }
#back { display: none; }

/* The last line of the screen has what was booked, and how far the desk is: it lies on nothing that can be pressed. */
footer {
  position: fixed; inset: auto 0 0; z-index: 9; min-height: 34px; padding: 0 20px; display: flex; align-items: center; gap: 14px;
  background: var(--head); color: var(--head-soft); font-size: 13.5px;
}
#stand { margin-left: auto; padding: 2px 0; } #stand.bad, #stand.warn { padding: 2px 10px; border-radius: 6px; }
#stand.bad { background: #a3202b; color: #fff; } #stand.warn { background: var(--warn-ground); color: var(--warn); }
footer button { background: transparent; border-color: currentColor; color: inherit; padding: 1px 10px; }
footer button:hover { background: #0003; }
#notice > div { display: flex; flex-wrap: wrap; gap: 2px 14px; align-items: center; padding: 4px 14px; border-radius: 6px; color: #fff; font-size: 15px; }
#notice .good { background: #17734a; } #notice .bad { background: #a3202b; }

main { max-width: 1280px; margin: 0 auto; padding: 18px 20px 54px; display: grid; gap: 18px; align-items: start; }
@media (min-width: 760px) { main.side > .stack:first-child td.do > div { flex-wrap: nowrap; } }
@media (min-width: 1200px) { main.list > .listed ~ * td.do > div { flex-wrap: nowrap; } }
@media (min-width: 1500px) { main { max-width: 1860px; } main.side > .stack:last-child td.do > div { flex-wrap: nowrap; } }
@media (min-width: 980px) {
  main.side { grid-template-columns: minmax(0, 1fr) clamp(372px, 27vw, 520px); }
  main.list { grid-template-columns: clamp(360px, 24vw, 460px) minmax(0, 1fr); }
}
.stack { display: grid; gap: 18px; min-width: 0; align-content: start; }
.card { background: var(--card); border: 1px solid var(--line); border-radius: 8px; min-width: 0; padding-bottom: 4px; }
.card .top { display: flex; flex-wrap: wrap; gap: 8px 12px; align-items: center; padding: 12px 16px 0; }
.card h2 { font-size: 16px; margin: 0 auto 0 0; overflow-wrap: anywhere; }
.card h3 { font-size: 14px; margin: 14px 16px 0; color: var(--soft); font-weight: 600; }
.card .body { padding: 10px 16px 12px; }
.card .none { padding: 12px 16px 14px; color: var(--soft); margin: 0; }
.card .wide { overflow-x: auto; padding: 6px 0 2px; }
.card .more {
  display: flex; flex-wrap: wrap; gap: 8px 12px; align-items: center; padding: 8px 16px 10px; color: var(--soft); font-size: 13.5px;
  border-top: 1px solid var(--faint);
}
.card ol { margin: 4px 0; padding-left: 22px; } .card ol li { margin: 5px 0; }
.soft { color: var(--soft); } .small { font-size: 13px; } .strong { font-weight: 600; }
.row { display: flex; flex-wrap: wrap; gap: 8px; align-items: center; }
.grow { flex: 1 1 8em; }
.full { width: 100%; }

table { border-collapse: collapse; width: 100%; }
th {
  text-align: left; font-size: 12.5px; color: var(--soft); font-weight: 600; padding: 4px 8px; border-bottom: 1px solid var(--line);
  white-space: nowrap;
}
button.sort { font-size: inherit; font-weight: inherit; border: 0; padding: 0; background: none; color: inherit; } button.sort:hover { color: var(--accent); }
.card .filter { padding-bottom: 0; } .filter input { flex: 1 1 10em; max-width: 24em; } .filter .phone, .filter:has(> .phone:only-child) { display: none; }
.needs td, .needs th { padding-inline: 0 6px; }
.needs td:first-child, .needs th:first-child { padding-left: 0; } .needs td:last-child, .needs th:last-child { padding-right: 0; }
td { padding: 6px 8px; border-bottom: 1px solid var(--faint); vertical-align: middle; overflow-wrap: break-word; }
tr:last-child > td { border-bottom: 0; }
th:first-child, td:first-child { padding-left: 16px; } th:last-child, td:last-child { padding-right: 16px; }
td.num, th.num { text-align: right; font-variant-numeric: tabular-nums; white-space: nowrap; }
td.do { text-align: right; } td.do > div { display: inline-flex; flex-wrap: wrap; gap: 6px; justify-content: flex-end; }
main.list > .listed td.do button { white-space: normal; min-width: 6.4em; }
td.id, .id { font-weight: 600; overflow-wrap: normal; white-space: nowrap; }
td.id a, .id a { color: inherit; text-decoration: none; } td.id a:hover, .id a:hover { text-decoration: underline; }
td.when { white-space: nowrap; } td .under { font-weight: 400; font-size: 13px; color: var(--soft); white-space: normal; }
td.num .pill { margin-top: 3px; } .batches td:nth-child(2) { min-width: 8.5em; } .stocks td.id { width: 100%; white-space: normal; overflow-wrap: anywhere; }
.record th.num:first-child { width: 6em; } .over { color: var(--bad); font-weight: 600; } .stamp .when { white-space: nowrap; }
.printed, .sign { display: none; } td:has(> span > input[type=checkbox]) { width: 3.5em; }
tr.on > td { background: var(--chosen); }
tr.pick { cursor: pointer; } tr.pick:hover > td { background: var(--hover); } tr.pick.on:hover > td { background: var(--chosen); }

button {
  font: inherit; font-size: 14px; padding: 4px 11px; border: 1px solid var(--edge); border-radius: 6px; background: var(--card);
  color: var(--ink); cursor: pointer; white-space: nowrap;
}
button:hover { background: var(--hover); }
button.main { background: var(--accent); border-color: var(--accent); color: var(--on-accent); }
button.main:hover { background: var(--accent-hover); }
button.bad { color: var(--bad); } button.bad:hover { background: var(--bad-ground); }
button.main.bad { background: #a3202b; border-color: #a3202b; color: #fff; } button.main.bad:hover { background: #861a23; }
button:disabled { opacity: .5; cursor: default; }
input, select, textarea {
  font: inherit; padding: 5px 8px; border: 1px solid var(--edge); border-radius: 6px; background: var(--field); color: var(--ink);
  min-width: 0; max-width: 100%;
}
textarea { font: 14px/1.4 ui-monospace, "DejaVu Sans Mono", "Liberation Mono", monospace; resize: vertical; }
input[data-id] { text-transform: uppercase; } input[data-id]::placeholder { text-transform: none; }
input[type=checkbox] { width: 17px; height: 17px; }
.choice { display: inline-flex; border: 1px solid var(--edge); border-radius: 6px; }
.choice button { border: 0; border-radius: 0; } .choice button:first-child { border-radius: 5px 0 0 5px; }
.choice button:last-child { border-radius: 0 5px 5px 0; }
.choice button + button { border-left: 1px solid var(--edge); } .choice button[aria-pressed=true] { background: #2b384e; color: #fff; }
.pill {
  display: inline-block; padding: 1px 9px; border-radius: 10px; font-size: 13px; font-weight: 400; background: var(--idle-ground);
  white-space: nowrap;
}
.pill.good { background: var(--good-ground); color: var(--good); } .pill.warn { background: var(--warn-ground); color: var(--warn); }
.pill.bad { background: var(--bad-ground); color: var(--bad); }
.parameters { background: var(--chosen); border-radius: 6px; padding: 8px 12px; margin: 8px 0; } .facts { display: flex; flex-wrap: wrap; gap: 6px 22px; }
.facts div { color: var(--soft); font-size: 13px; }
.facts b { display: block; color: var(--ink); font-size: 15px; font-weight: 600; overflow-wrap: anywhere; }
.bar { height: 6px; border-radius: 3px; background: var(--idle-ground); overflow: hidden; margin: 10px 0 4px; }
.bar i { display: block; height: 100%; background: var(--accent); }
pre { margin: 0; font: 13px/1.45 ui-monospace, "DejaVu Sans Mono", "Liberation Mono", monospace; overflow-x: auto; }
kbd {
  font: 12px ui-monospace, monospace; border: 1px solid var(--edge); border-bottom-width: 2px; border-radius: 4px; padding: 0 5px;
  background: var(--card); color: var(--ink);
}
summary { cursor: pointer; padding: 6px 16px; color: var(--soft); font-size: 13.5px; }
.chosen {
  position: sticky; bottom: 34px; background: var(--chosen); padding: 8px 16px; display: flex; flex-wrap: wrap; gap: 8px 12px;
  align-items: center; border-top: 1px solid var(--line); border-radius: 0 0 8px 8px; margin-bottom: -4px;
}

#clock { max-width: 1240px; margin: 14px auto 0; padding: 10px 16px; border-radius: 8px; background: var(--bad-ground); color: var(--bad); }
#waiting > div {
  max-width: 1240px; margin: 14px auto 0; padding: 10px 16px; display: flex; flex-wrap: wrap; gap: 8px 12px; align-items: center;
  border-radius: 8px; background: var(--bad-ground); color: var(--bad); border: 1px solid currentColor; width: calc(100% - 20px);
}
#waiting span { margin-right: auto; flex: 1 1 20em; }
dialog {
  border: 0; border-radius: 10px; padding: 0; width: min(500px, 94vw); box-shadow: 0 12px 50px #0006; color: var(--ink);
  background: var(--card);
}
dialog::backdrop { background: #10182699; }
dialog form { padding: 18px 20px; display: grid; grid-template-columns: 1fr 1fr; gap: 12px; } dialog form > * { grid-column: 1 / -1; }
dialog form > .half { grid-column: auto; align-self: end; }
dialog h2 { margin: 0; font-size: 17px; overflow-wrap: anywhere; } dialog p { margin: 0; }
dialog dl, dialog dd { margin: 0; } dialog dt { font-weight: 600; } dialog dd { color: var(--soft); margin-bottom: 6px; }
dialog label { display: grid; gap: 3px; font-size: 13.5px; color: var(--soft); }
dialog label input, dialog label select, dialog label textarea { color: var(--ink); font-size: 15px; } dialog label > .small:empty { position: absolute; }
dialog .wrong { color: var(--bad); background: var(--bad-ground); border-radius: 6px; padding: 8px 12px; }
dialog .lot { display: grid; gap: 8px; } dialog .said { color: var(--good); font-weight: 600; } dialog .said:empty { display: none; }
dialog .foreseen { color: var(--soft); margin: 0; } dialog .wrong:empty, dialog .foreseen:empty { display: none; }
dialog .end { display: flex; justify-content: flex-end; align-items: center; gap: 8px; } dialog .as { color: var(--soft); overflow-wrap: anywhere; }
.inputs { display: grid; gap: 12px; } .inputs h3 { margin: 0; font-size: 15px; } .inputs p { margin: 0 0 2px; }
.inputs .part { display: flex; align-items: center; gap: 8px; padding: 4px 0; border-top: 1px solid var(--faint); color: var(--ink); }
.inputs .part input { flex: none; } .inputs .part span { flex: 1 1 auto; min-width: 0; overflow-wrap: anywhere; } .inputs .part b { white-space: nowrap; }
.still { background: var(--warn-ground); color: var(--warn); border-radius: 8px; padding: 10px 14px; } .still div { display: grid; gap: 8px; margin-top: 8px; }
.still button { min-height: 50px; font-size: 17px; font-weight: 600; white-space: normal; }

/* The lines of a recipe, one by one, and beside them as a text. */
dialog:has(.lines) { width: min(560px, 94vw); } .lines { display: grid; gap: 6px; align-content: start; font-size: 13.5px; color: var(--soft); }
.line { display: flex; gap: 6px; align-items: center; } .line .words { flex: 1 1 auto; display: flex; gap: 6px; align-items: center; min-width: 0; }
.line .words > :is(input, select) { flex: 1 1 4em; width: 4em; } .line .words > select { flex-grow: 2; } .line > :is(select, button) { flex: none; }
@media (max-width: 620px) { .line { flex-wrap: wrap; } .line .words { flex-basis: 100%; order: 1; } .line > select { margin-right: auto; } }
@media (min-width: 980px) {
  dialog:has(.lines) { width: min(1120px, 96vw); } dialog form:has(.lines) { grid-template-columns: 1fr 1fr 1fr 1fr; }
  dialog form > .lines { grid-column: 1 / span 2; } dialog form > .lines + label { grid-column: 3 / span 2; align-content: start; }
  .lines + label textarea { min-height: 17em; }
}

/* Paper: a dialog shows it, and it is printed alone. */
#paper { display: none; } dialog:has(.sheets) { width: min(460px, 94vw); } .sheets { display: grid; gap: 12px; }
.sheets > * { min-width: 0; } .bars { display: block; max-width: 100%; fill: #000; }
.label { background: #fff; color: #000; border: 1px solid #888; border-radius: 6px; padding: 3mm; overflow-wrap: anywhere; font-size: 12pt; line-height: 1.25; }
.label h3 { margin: 0 0 1mm; font-size: 22pt; line-height: 1; } .label p { margin: 1mm 0; } .label.long { font-size: 9pt; } .label.long h3 { font-size: 13pt; }
.label .known { display: flex; flex-wrap: wrap; gap: .5mm 6mm; } .label.long .known div:last-child b { font-weight: 400; }
.label .known span { font-size: 8pt; color: #333; margin-right: 1.5mm; }
dialog:has(.sheet) { width: min(860px, 94vw); } .sheet h3 { margin: 14px 0 2px; font-size: 14px; }
.sheet .head { display: flex; flex-wrap: wrap; gap: 8px 24px; justify-content: space-between; margin-bottom: 10px; } .sheet .bars { background: #fff; }
.tickbox { display: inline-block; width: 5mm; height: 5mm; border: 1px solid var(--ink); vertical-align: middle; } .towrite { min-width: 30mm; width: 40%; }
.sheet th:first-child, .sheet td:first-child { width: 4em; padding-left: 5px; }
dialog:has(.balance) { width: min(1240px, 96vw); } .balance th:first-child, .balance td:first-child { width: auto; } .balance { page: broad; }
@page broad { size: landscape; }

/* The first view: figures, tables and plots side by side, and the same in large letters. */
@media (min-width: 980px) { main.today { grid-template-columns: repeat(2, minmax(0, 1fr)); } main.board { grid-template-columns: repeat(3, minmax(0, 1fr)); } }
.tiles { grid-column: 1 / -1; display: grid; grid-template-columns: repeat(auto-fit, minmax(150px, 1fr)); gap: 12px; }
.tile { padding: 10px 14px; border-top: 4px solid var(--edge); } .tile h2 { font-size: 14px; color: var(--soft); margin: 0; }
.tile .number { display: inline-block; min-width: 44px; font-size: 34px; line-height: 44px; font-weight: 600; color: inherit; text-decoration: none; }
.tile a.number:hover { text-decoration: underline; } .tile p { display: grid; gap: 2px; font-size: 13px; margin: 0; justify-items: start; color: var(--soft); }
.tile.bad { border-top-color: #c2333f; } .tile.bad .number { color: var(--bad); } .tile.warn { border-top-color: #c08a1e; }
.tile.warn .number { color: var(--warn); }
.tile.good { border-top-color: #2a8f60; } .tile.nothing .number { color: var(--soft); font-weight: 400; }
.nowrap { white-space: nowrap; } .later { min-height: 236px; } .plot { padding: 6px 16px 2px; } .plot svg { display: block; }
label.tick { display: flex; align-items: center; gap: 8px; }
svg .axis { stroke: var(--line); } svg .tick { font-size: 12px; fill: var(--soft); } svg .column { fill: var(--accent); } svg .column.bad { fill: #c2333f; }
svg .column.warn { fill: #c08a1e; } svg .column.good { fill: #2a8f60; } svg .mark { stroke: var(--ink); stroke-dasharray: 4 3; }
svg .line { fill: none; stroke: var(--accent); stroke-width: 2; } svg .below { fill: var(--accent); opacity: .16; }
body:has(main.board) header { display: none; } main.board { max-width: none; padding: 14px 16px 54px; }
.board .tiles { grid-template-columns: repeat(auto-fit, minmax(max(150px, 12.5vw), 1fr)); } .board .tile h2 { font-size: clamp(16px, 1.6vw, 34px); }
.board .tile .number { font-size: clamp(48px, 5vw, 150px); line-height: 1.1; } .board .tile p { font-size: clamp(14px, 1.1vw, 24px); }
.board .card h2 { font-size: clamp(17px, 1.3vw, 28px); } .board td, .board td .small, .board td .under, .board .none { font-size: clamp(15px, 1vw, 30px); }
.board th { font-size: clamp(13px, .9vw, 20px); } .board details, .board button, .board .more, body:has(main.board) footer button { display: none; }
.board .tiles { gap: 10px; } main.board, .board .stack { gap: 10px; } .board td a { color: inherit; text-decoration: none; }
.board .plot svg { width: 100%; } .board .later { min-height: 0; } .board .pill { font-size: inherit; }
.alarm::after {
  content: ""; position: fixed; inset: 0; z-index: 10; border: 18px solid #c2333f; pointer-events: none; animation: flash 1s steps(2, jump-none) infinite;
}
@keyframes flash { from { opacity: 1; } to { opacity: 0; } }
@media (prefers-reduced-motion: reduce) { .alarm::after { animation: none; } }
dialog:has(.help) { width: min(680px, 94vw); } .help .keys { display: grid; grid-template-columns: repeat(auto-fit, minmax(230px, 1fr)); gap: 4px 16px; }
.help h3 { margin: 4px 0 0; font-size: 14px; color: var(--soft); }

.picture { overflow: auto; max-height: 74vh; padding: 12px 16px 8px; }
svg text { font-size: 12px; fill: var(--ink); } svg .box { stroke: #8592a6; fill: var(--card); }
svg .box.held { fill: var(--warn-ground); stroke: #c08a1e; } svg .box.recalled { fill: var(--bad-ground); stroke: var(--bad); }
svg .box.here { stroke-width: 2.5; stroke: var(--accent); } svg .edge { stroke: #8592a6; fill: none; } svg .tip { fill: #8592a6; }
svg a { cursor: pointer; }
svg .amount { fill: var(--soft); font-size: 11px; paint-order: stroke; stroke: var(--card); stroke-width: 4px; }
svg .name { font-weight: 600; } svg .sub { fill: var(--soft); font-size: 11px; }
svg .word { fill: var(--bad); font-weight: 600; font-size: 10px; }

/* On a narrow screen, and where a finger points, all that is pressed is high enough for a glove. */
@media screen and (max-width: 979px), screen and (pointer: coarse) {
  #help { min-width: 44px; }
  button, select, summary, input, dialog textarea { min-height: 44px; } button { padding: 7px 13px; }
  td a, .facts a, .top a { display: inline-block; padding: 12px 0; margin: -12px 0; min-width: 44px; }
  .tile p { gap: 0; } .tile p a { display: inline-flex; align-items: center; min-height: 44px; }
  .row > a { display: inline-flex; align-items: center; min-height: 44px; min-width: 44px; }
  summary { padding: 11px 16px; }
  input[type=checkbox] {
    appearance: none; width: 44px; height: 44px; border: 0; margin: -4px 0 -4px -10px; padding: 0; display: grid; place-content: center; background: none;
  }
  input[type=checkbox]::before {
    content: ""; width: 24px; height: 24px; border: 2px solid var(--edge); border-radius: 5px; background: var(--field); color: var(--on-accent);
    font: 700 18px/20px system-ui, sans-serif; text-align: center;
  }
  input[type=checkbox]:checked::before { content: "\2713"; background: var(--accent); border-color: var(--accent); }
  input[type=checkbox]:disabled { opacity: .45; }
  footer:has(button) { min-height: 50px; }
}
/* A narrow screen shows the list or the thing. Of the header, its first line scrolls away. */
@media screen and (max-width: 979px) {
  html { scroll-padding: 106px 0 60px; }
  main { padding: 12px 14px 70px; } .thing .listed { display: none; } .stack:empty { display: none; }
  header { top: -52px; gap: 0 8px; padding: 0 14px; }
  header > h1, header > form, header > .who, header > #help { margin: 4px 0; }
  header > form, header > .who { flex: 1 1 150px; min-width: 0; } header > form input, header > .who input { flex: 1 1 5em; width: 5em; }
  header::after { content: ""; order: 4; width: 100%; } header nav, #back { order: 5; } header nav a { min-height: 44px; }
  #back { display: flex; align-items: center; margin-left: auto; min-height: 44px; padding: 0 6px; color: var(--head-ink); }
  footer { min-height: 30px; padding: 0 14px; } .chosen { bottom: 30px; }
  #notice:not(:empty) + #stand, #notice:empty { display: none; } #notice { width: 100%; }
  #notice > div { flex-wrap: nowrap; justify-content: space-between; margin: 3px -8px; }
}
@media (max-width: 620px) {
  header { padding: 0 10px; } header > h1 { display: none; } header > .who { font-size: 0; flex-basis: 110px; } header > .who input { font-size: 15px; }
  .choice button { padding: 7px 8px; }
  header nav { width: 100%; justify-content: space-between; } header nav a { padding: 0 5px; } #back { width: 100%; }
  main { padding: 10px 10px 70px; }
  .filter:has(> .phone:only-child) { display: flex; } .filter .phone { display: block; flex: 1 1 8em; } .sheet .block td { width: auto; }
  /* A row of a table stands as a block of named values. */
  table.block, .block tbody, .block tr, .block td { display: block; } .block thead { display: none; }
  .block tr { padding: 8px 16px; border-bottom: 1px solid var(--line); } .block tr:last-child { border-bottom: 0; }
  .block tr.on { background: var(--chosen); }
  .block td, .block td:first-child, .block td:last-child {
    display: flex; justify-content: space-between; gap: 14px; padding: 2px 0; border: 0; text-align: right; white-space: normal;
  }
  .block td::before { content: attr(data-label); color: var(--soft); font-size: 13px; font-weight: 400; text-align: left; }
  .block td[data-label=""]::before { display: none; } .block td:empty { display: none; }
  .block td.do { padding-top: 6px; } .block td.do > div { justify-content: flex-start; gap: 8px; } .block td { align-items: center; }
}
@page label { size: 100mm 60mm; margin: 3mm; @bottom-right { content: none; } }
@page { size: A4; margin: 14mm 12mm 18mm; @bottom-right { content: "page " counter(page) " of " counter(pages); font: 9pt sans-serif; } }
@media print {
  :root {
    color-scheme: light; --ink: #000; --soft: #333; --line: #999; --faint: #ccc; --card: #fff; --ground: #fff; --bad: #a3202b; --good: #000;
    --warn: #000; --accent: #000; --good-ground: #fff; --warn-ground: #fff; --bad-ground: #fff; --idle-ground: #fff; --chosen: #fff; --field: #fff;
  }
  .thing .listed { display: none; } header, footer, #clock, #waiting, button:not(.sort), .choice, .noprint, .chosen, .filter { display: none !important; }
  body { background: #fff; font-size: 10pt; } main, .stack { display: block; padding: 0; max-width: none; } .card { border: 0; }
  main:has(.record) .card:not(.record) { display: none; } tr, h3 { break-inside: avoid; } h3 { break-after: avoid; }
  .card .wide, .picture, pre { overflow: visible; max-height: none; } pre { white-space: pre-wrap; overflow-wrap: break-word; }
  table { font-size: 9pt; } th, td, th:first-child, td:first-child, th:last-child, td:last-child { padding: 3px 5px; }
  th { white-space: normal; } td.id, .id { white-space: normal; overflow-wrap: break-word; } a { color: inherit; text-decoration: none; }
  body:has(#paper > *) > :not(#paper) { display: none !important; } #paper { display: block; }
  .sheet th, .sheet td { border: 1px solid var(--line); } .sheet td { height: 11mm; } .sheet .towrite { width: 58mm; } .sheet .printed { padding: 0 0 8px; }
  .sheet tr:last-child > td { border-bottom: 1px solid var(--line); }
  .sheet .sign { padding-inline: 0; }
  .label { page: label; border: 0; padding: 0; } .label + .label { break-before: page; }
  .printed { display: block; padding: 0 16px; color: var(--soft); }
  .sign { display: grid; gap: 14mm; padding: 14mm 16px 0; break-inside: avoid; } .sign div { display: grid; grid-template-columns: 2fr 1fr 2fr; gap: 8mm; }
  .sign span { border-top: 1px solid #000; padding-top: 2px; font-size: 9pt; }
}
"##;

/// Its entity tag.
pub const STYLE_TAG: &str = "\"cfcace95ffe547410515b3930ec2cf37\"";
