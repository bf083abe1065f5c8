//! What several views of the page show, as it is sent. make/page.py writes this file of what is in page/.

/// Its bytes: JavaScript in ASCII.
pub const RECORDS: &[u8] = br##""use strict";
const MOST = 1000, MOST_LINES = 40, MOST_ROWS = 8, MOST_ON_WALL = 4;
const firstOf = (rows, isBoard) => rows.slice(0, isBoard ? MOST_ON_WALL : MOST_ROWS);
const AHEAD = ["7 days", "1 day", "30 days"], SPANS = ["1 day", "7 days", "30 days"];
const today = () => overview(false);
const board = () => overview(true);
async function overview(isBoard) {
  const it = await figures(), stack = (...cards) => h("div", { class: "stack" }, cards);
  if (desk.seq === 0) return ["", firstSteps()];
  const running = runningBatches(it, isBoard), bars = latestBars(it, isBoard), short = shortCard(it, isBoard), due = dueCard(it);
  const yields = card(t`Yield`, null, later("yield", (isShown) => yieldPlot(isShown, isBoard)));
  const stock = card(t`Stock over ${STOCK_DAYS} days`, null, later("stock", (isShown) => stockPlot(it, isShown, isBoard)));
  if (isBoard) return ["today board", tiles(it, true), stack(running, stock), stack(bars, short), stack(due, yields)];
  return ["today", tiles(it, false), stack(running, short, yields), stack(bars, due, stock, boardCard())];
}
async function figures() {
  const day = desk.today(), ahead = filterOf("ahead", AHEAD), until = dayAfter(day, parseInt(ahead, 10));
  const orders = await desk.orders("open", MOST), batches = await desk.batches(MOST), holds = await desk.allHolds(MOST), recalls = await desk.recalls(MOST);
  const stocks = new Map((await desk.materials()).map((it) => [it.def, it]));
  watchFor(holds, recalls);
  const planned = batches.filter((it) => it.planned).map((it) => ({ ...it, due: it.planned.due }));
  const wanted = await demands(orders.filter((it) => it.due <= until), planned.filter((it) => it.due <= until));
  const isWhole = wanted.isWhole && !(orders.more && orders.at(-1).due <= until);
  return { day, ahead, until, orders, batches, planned, holds, recalls, stocks, isWhole, short: shortage(wanted.asked, wanted.made, stocks) };
}
async function demands(orders, batches) {
  const asked = [], made = [];
  const add = (line, amount, due) => (line.kind === "in" ? asked : made).push({ def: line.def, unit: line.unit, amount, due });
  const isUntouched = (it) => it.state === "idle" && it.attempt === 1, going = batches.filter((it) => !MAY_CLOSE.includes(it.state));
  for (const { recipe, version, size, due } of [...orders, ...going.filter(isUntouched).map((it) => it.planned)]) {
    const { lines, base } = await desk.recipeOnce(recipe, version);
    for (const it of lines) if (it.def) add(it, scaled(it.qty, base, size), due);
  }
  const begun = going.filter((it) => !isUntouched(it)).sort((a, b) => (a.due < b.due ? -1 : 1));
  for (const { batch, due } of begun.slice(0, MOST_LINES)) {
    for (const it of await desk.batchLines(batch)) if (it.def && it.booked < it.asked) add(it, it.asked - it.booked, due);
  }
  return { asked, made, isWhole: begun.length <= MOST_LINES };
}
const many = (list, one, several) => (list.more ? t`${grouped(list.length)} and more ${t(several)}` : counted(list.length, one, several));
function tile({ name, list, tone, place, more = [] }, isBoard) {
  const count = `${grouped(list.length)}${list.more ? "+" : ""}`, number = isBoard ? h("b", { class: "number" }, count)
    : h("a", { class: "number", href: `#${place}`, "aria-label": `${name}: ${count}` }, count);
  const told = more.filter(Boolean).map(([where, text]) => (isBoard || !where ? h("span", {}, text) : link(where, text)));
  return h("section", { class: `card tile ${list.length ? tone || "" : "nothing"}`.trim() }, h("h2", { tabindex: -1 }, name), number, h("p", {}, told));
}
function tiles(it, isBoard) {
  const orders = dueBy(it.orders, it.day), batches = dueBy(it.planned, it.day), all = [[...orders.late, ...batches.late], [...orders.today, ...batches.today]];
  const due = (mine, theirs, where = "planner") => [mine.length && [where, many(mine, "order isn't released", "orders aren't released")],
    theirs.length && ["shift", many(theirs, "batch is open", "batches are open")]];
  const running = it.batches.filter((one) => one.state === "running"), idle = it.batches.filter((one) => one.state === "idle");
  const broken = it.batches.filter((one) => !["running", "idle", "complete"].includes(one.state)), soon = it.orders.filter((one) => one.due <= it.until);
  const lots = Object.assign([...new Set(it.holds.map((one) => one.lot))], { more: it.holds.more });
  const of = (mine, theirs) => (mine.length || !theirs.length ? "planner" : "shift");
  const first = (list, place, name) => list.slice(0, 2).map((one) => [place(one), name(one)]);
  const figures = [
    { name: t`Late`, list: all[0], tone: "bad", place: of(orders.late, batches.late), more: due(orders.late, batches.late) },
    { name: t`Due today`, list: all[1], tone: "warn", place: orders.today.length ? `planner?text=${it.day}` : of(orders.today, batches.today),
      more: due(orders.today, batches.today, `planner?text=${it.day}`) },
    { name: t`Running`, list: running, tone: "good", place: "shift",
      more: [idle.length && ["shift", t`${grouped(idle.length)} to be started`],
        broken.length && ["shift", t`${grouped(broken.length)} paused, held or ended early`]] },
    { name: t`Waiting`, list: it.orders, place: "planner", more: [[null, t`${grouped(soon.length)} due within ${t(it.ahead)}`]] },
    { name: t`On hold`, list: lots, tone: "warn", place: "quality", more: first(lots, (one) => `quality/lot/${one}`, (one) => one) },
    { name: t`Recalled`, list: it.recalls, tone: "bad", place: "quality",
      more: first(it.recalls, (one) => `quality/recall/${one.recall}`, (one) => one.recall) },
    { name: t`Short`, list: it.short, tone: "bad", place: it.short.length ? `warehouse/${it.short[0].def}` : "warehouse",
      more: first(it.short, (one) => `warehouse/${one.def}`, (one) => one.def) },
  ];
  return h("div", { class: "tiles" }, figures.map((one) => tile(one, isBoard)));
}
const restOf = (rows, place, text) => rows.length > MOST_ROWS && h("div", { class: "more" }, t`${grouped(rows.length - MOST_ROWS)} more: `, link(place, text));
function runningBatches({ batches }, isBoard) {
  const now = desk.time(), going = batches.filter((it) => it.state !== "idle" && it.state !== "complete").sort((a, b) => a.at - b.at);
  const made = ({ planned }) => planned && h("div", { class: "under" }, planned.title || planned.product);
  const rows = firstOf(going, isBoard).map((it) => row(it.batch, [idCell(batchLink(it.batch), made(it)), cell(pill(wordOf(it.state), TONES[it.state])),
    cell(it.phase ? [h("div", {}, it.phase), h("div", { class: "soft small nowrap" }, t`on ${it.phase_unit}`)] : t`all phases done`),
    cell(h("div", {}, lengthOfTime(now - it.at)), !isBoard && h("div", { class: "soft small" }, moment(it.at)))]));
  return card(t`Running, the longest first`, null, table(["Batch", "State", "Next", "Last step ago"], rows, t`No batch runs.`),
    restOf(going, "shift", t`all batches`));
}
function latestBars({ holds, recalls }, isBoard) {
  const all = [...holds.map((it) => ({ ...it, what: t`hold ${it.hold}` })),
    ...recalls.map((it) => ({ ...it, what: [t`recall `, link(`quality/recall/${it.recall}`, it.recall)], isRecall: true }))].sort((a, b) => b.at - a.at);
  const rows = firstOf(all, isBoard).map((it) => row(`${it.lot} ${it.hold || it.recall}`, [idCell(lotLink(it.lot)),
    cell(h("div", { class: it.isRecall ? "over" : null }, it.what), it.note && h("div", { class: "soft small" }, it.note)),
    cell(h("div", {}, it.by), h("div", { class: "soft small when" }, moment(it.at)))]));
  return card(t`On hold and recalled, the last first`, null, table(["Lot", "What", "By, since"], rows, t`No lot is on hold, and none is recalled.`),
    restOf(all, "quality", t`all holds and recalls`));
}
function shortCard({ short, until, ahead, isWhole }, isBoard) {
  const amount = (n, unit) => (n ? numberCell(n, unit) : cell());
  const rows = firstOf(short, isBoard).map((it) => row(it.def, [idCell(link("warehouse/" + it.def, it.def), it.name && h("div", { class: "under" }, it.name)),
    !isBoard && [numberCell(it.asked, it.unit), numberCell(it.free, it.unit), amount(it.made, it.unit)],
    h("td", { class: "num" }, h("span", { class: "over" }, grouped(it.short), " ", it.unit)), cell(dated(it.from))].flat().filter(Boolean)));
  const heads = ["Material", ...(isBoard ? [] : ["#Asked", "#Free", "#Made by then"]), "#Short", "From^day"];
  const pick = choice(t`Days to look ahead`, SPANS, ahead, (it) => setFilter("ahead", AHEAD, it));
  return card(t`Short by ${dated(until)}`, !isBoard && pick, table(heads, rows, t`Nothing is short for the open orders and batches that are due by then.`),
    restOf(short, "warehouse", t`the warehouse`),
    !isWhole && h("p", { class: "none" }, t`The first ${grouped(MOST)} orders and the lines of ${MOST_LINES} batches are counted, and there are more.`));
}
const BEFORE = 14, DAYS = 29;
function dueCard({ day, orders, planned }) {
  const { days, before, after } = dueByDay([...orders, ...planned], dayAfter(day, -BEFORE), DAYS);
  const values = days.map((it) => ({ n: it.count, tone: it.day < day ? "bad" : it.day === day ? "warn" : "",
    tick: it.day === day ? t`today, ${shortDay(day)}` : shortDay(it.day), said: `${dated(it.day)}: ${grouped(it.count)}` }));
  const late = before + days.filter((it) => it.day < day).reduce((sum, it) => sum + it.count, 0);
  const rest = [before && t`${grouped(before)} due before these days`, after && t`${grouped(after)} after them`].filter(Boolean).join(", ");
  return card(t`Orders and batches by their due dates`, null, barPlot(t`Open orders and batches by their due dates, ${late} late`, values),
    rest && h("p", { class: "none" }, `${rest}.`), valuesOf(t`Due dates`, ["Due", "#Open"],
      days.filter((it) => it.count).map((it) => valueRow(dated(it.day), [it.count]))));
}
function plotOf(name, id, label, values, on) {
  return h("div", { class: "body row" }, h("select", { id, "aria-label": label, onchange: (event) => setText(name, event.target.value) },
    values.map((it) => h("option", { value: it, selected: it === on }, it))));
}
const LAST_BATCHES = 30, LOW_YIELD = 95, MOST_FINISHED = 2000, BACK = [3, 14, 60, 240, 4000];
async function lastFinished(recipe, isShown) {
  let found = [], all = [], of = recipe;
  for (const days of BACK) {
    if (!isShown()) break;
    const read = await desk.ordersSince("finished", dayAfter(desk.today(), -days), MOST_FINISHED);
    if (read.more && all.length) break;
    all = read;
    of ||= all.at(-1)?.recipe || "";
    found = all.filter((it) => it.recipe === of).slice(-LAST_BATCHES);
    if (found.length === LAST_BATCHES) break;
  }
  return { of, found, recipes: [...new Set([...all.map((it) => it.recipe), of])].filter(Boolean).sort() };
}
async function yieldPlot(isShown, isBoard) {
  const { of, found, recipes } = await lastFinished(textOf("recipe"), isShown), values = [];
  const pick = !isBoard && recipes.length > 0 && plotOf("recipe", "yieldrecipe", t`Recipe of the yields`, recipes, of);
  for (const order of found) {
    if (!isShown()) return [];
    const { batch, lines } = await desk.finishedBatch(order.order), { product } = await desk.recipeOnce(order.recipe, order.version);
    const it = yieldOf(lines, product);
    if (it) values.push({ ...it, n: it.percent, batch, due: order.due, tone: it.percent < LOW_YIELD ? "bad" : "good", tick: shortDay(order.due),
      said: t`${batch}: ${decimal(it.percent, 1)}\u202f%, ${grouped(it.booked)} of ${grouped(it.asked)} ${it.unit}` });
  }
  if (!values.length) return [pick, none(of ? t`No order of ${of} is finished.` : t`No order is finished.`)];
  const asked = values.reduce((sum, it) => sum + it.asked, 0), booked = values.reduce((sum, it) => sum + it.booked, 0);
  const rows = values.map((it) => row(`yield ${it.batch}`, [idCell(batchLink(it.batch)), numberCell(it.asked, it.unit), numberCell(it.booked, it.unit),
    h("td", { class: "num" }, decimal(it.percent, 1))]));
  const percent = decimal((100 * booked) / asked, 1);
  const told = values.length === 1 ? t`${of}: the last batch made ${percent}\u202f% of what was asked`
    : t`${of}: the last ${values.length} batches made ${percent}\u202f% of what was asked`;
  return [pick, h("p", { class: "none" }, `${told}. ${t`Red is below ${LOW_YIELD}\u202f%.`}`), barPlot(told, values, "\u202f%", 100),
    valuesOf(t`Yield`, ["Batch", "#Asked", "#Booked", "#Percent"], rows)];
}
const STOCK_DAYS = 90, MOST_LOTS = 100, MOST_MOVEMENTS = 500;
async function stockPlot({ stocks, short, day }, isShown, isBoard) {
  const there = [...stocks.values()].filter((it) => it.lots > 0), most = [...there].sort((a, b) => b.lots - a.lots)[0];
  const def = textOf("def") || short.find((it) => stocks.get(it.def)?.lots)?.def || most?.def, known = stocks.get(def);
  const defs = [...new Set([...there.map((it) => it.def), def])].sort();
  const pick = !isBoard && there.length > 0 && plotOf("def", "stockdef", t`Material of the stock`, defs, def);
  if (!known?.lots) return [pick, none(def ? t`There is no ${def} in stock.` : t`Nothing is in stock.`)];
  const lots = await desk.stock(def, MOST_LOTS), ledgers = [];
  for (const { lot, stock } of lots) {
    if (!isShown()) return [];
    const movements = await desk.ledger(lot, stock, MOST_MOVEMENTS);
    if (!movements.more) ledgers.push({ lot, movements });
  }
  const left = lots.length - ledgers.length, days = stockByDay(ledgers, dayAfter(day, 1 - STOCK_DAYS), STOCK_DAYS), now = days.at(-1).stock;
  const told = t`${known.name || def}: ${grouped(now)} ${known.unit} of ${counted(ledgers.length, "lot", "lots")} in stock`;
  const limits = [lots.more && t`the ${MOST_LOTS} oldest lots alone`,
    left > 0 && t`${counted(left, "lot", "lots")} of more than ${MOST_MOVEMENTS} bookings left out`];
  const said = [t`Lots that are used up meanwhile aren't counted`, ...limits].filter(Boolean).join(", ");
  const weeks = days.filter((it, k) => (STOCK_DAYS - 1 - k) % 7 === 0);
  return [pick, h("p", { class: "none" }, `${told}. ${said}.`), stepPlot(t`${told}, day by day`, days.map((it) => ({ n: it.stock, tick: shortDay(it.day) })), ""),
    valuesOf(t`Stock`, ["Day", "#Stock"], weeks.map((it) => valueRow(dated(it.day), [it.stock, known.unit])))];
}
function boardCard() {
  const board = link(location.hash.replace(/^#?\w*/, "board"), t`Open the board`);
  const what = t`: the same in large letters, without buttons, for a screen on the wall. Esc leads back here.`;
  return card(t`The board`, null, h("div", { class: "body" }, h("p", {}, board, what), alarmBox()));
}
const LARGEST_PICTURE = 300, PICTURES = ["each", "by material"];
function genealogyCard({ back, forward }, here) {
  const nodes = new Map([...back.nodes, ...forward.nodes].map((it) => [nameOfNode(it), it]));
  const named = [...back.edges, ...forward.edges].map((it) => ({ from: nameOfNode(it.from), to: nameOfNode(it.to), amount: it.amount }));
  const edges = [...new Map(named.map((it) => [`${it.from}>${it.to}`, it])).values()];
  if (nodes.size === 1) return card(t`Genealogy`, null, none(t`It came of nothing that is booked, and nothing came of it.`));
  const before = new Set(back.nodes.map(nameOfNode)), isLarge = nodes.size > LARGEST_PICTURE;
  const tools = [h("span", { class: "soft small" }, `${counted(nodes.size - 1, "other", "others")}`),
    !isLarge && filterChoice(t`How the genealogy is drawn`, "picture", PICTURES)];
  if (isLarge || filterOf("picture", PICTURES) === "by material") {
    return card(t`Genealogy`, tools, isLarge && none(t`${grouped(nodes.size)} lots and batches are drawn by their materials.`),
      picturesOfGroups(groupsOf(nodes, edges, here, (it) => before.has(it)), here), edgesList(nodes, edges));
  }
  const made = productsOf(nodes, edges), boxes = new Map([...nodes].map(([name, it]) => [name, boxOf(it, made.get(name), name === here)]));
  return card(t`Genealogy`, tools, picture(boxes, edges, here), edgesList(nodes, edges));
}
const unitOf = (nodes, edge) => nodes.get(edge.from).unit || nodes.get(edge.to).unit || "";
const boxOf = (node, product, isHere) => ({ unit: node.unit, isHere, isOfLots: Boolean(node.lot), tone: node.recalled ? "recalled" : node.held ? "held" : "",
  texts: [node.lot || node.batch, node.lot ? node.def : product ? t`batch of ${product}` : t`batch`, node.lot ? `${grouped(node.stock)} ${node.unit}` : ""],
  marks: [node.held && t`HELD`, node.recalled && t`RECALLED`].filter(Boolean).join(" "),
    place: node.lot ? `quality/lot/${node.lot}` : `quality/batch/${node.batch}` });
function boxOfGroup(it) {
  const isOne = it.count === 1, [kind, id] = it.first.split(" "), count = it.isOfLots ? counted(it.count, "lot", "lots") : counted(it.count, "batch", "batches");
  const name = isOne ? id : count;
  return { unit: it.unit, isHere: it.side === "here", isOfLots: it.isOfLots, tone: it.recalled ? "recalled" : it.held ? "held" : "",
    texts: [name, it.isOfLots ? it.def : it.def ? t`of ${it.def}` : t`batch`, it.isOfLots ? `${grouped(it.stock)} ${it.unit}` : ""],
    marks: [it.held && [!isOne && grouped(it.held), t`HELD`], it.recalled && [!isOne && grouped(it.recalled), t`RECALLED`]].flat().filter(Boolean).join(" "),
    place: isOne ? `quality/${kind}/${id}` : it.def ? `warehouse/${it.def}` : null };
}
function picturesOfGroups({ groups, edges, left }, here) {
  const boxes = new Map([...groups].map(([key, it]) => [key, boxOfGroup(it)]));
  const sides = { back: t`before it`, here: t`itself`, forward: t`of it` };
  const sorted = [...groups.values()].sort((a, b) => a.depth - b.depth || (a.def < b.def ? -1 : 1));
  const rows = sorted.map((it) => row(it.key, [cell(sides[it.side]), cell(it.isOfLots ? t`lots` : t`batches`), cell(it.def), numberCell(it.count),
    it.isOfLots ? numberCell(it.stock, it.unit) : cell(), numberCell(it.held), numberCell(it.recalled)]));
  const backwards = left > 0 && none(t`${counted(left, "step", "steps")} back to an earlier material, not drawn.`);
  const heads = ["Came^side", "What", "Material", "#Count", "#In stock", "#On hold", "#Recalled"];
  return [picture(boxes, edges, here), backwards, h("details", {}, h("summary", {}, t`The materials as a table`), table(heads, rows, ""))];
}
function edgesList(nodes, edges) {
  const place = (name) => link("quality/" + name.replace(" ", "/"), nodeInWords(name));
  const cells = (it) => [cell(place(it.from)), numberCell(it.amount, unitOf(nodes, it)), cell(place(it.to))];
  const rows = edges.slice(0, MOST_STEPS).map((it) => row(`${it.from}>${it.to}`, cells(it)));
  const title = edges.length > MOST_STEPS ? t`The first ${grouped(MOST_STEPS)} steps in words` : t`The steps in words`;
  return h("details", { class: "noprint" }, h("summary", {}, title), table(["From", "#Amount", "To"], rows, ""));
}
const MOST_STEPS = 1000;
const BOX = { high: 62, across: 88, down: 16 };
function placed(boxes, edges) {
  const into = new Map([...boxes.keys()].map((it) => [it, []])), depth = depthsOf([...boxes.keys()], edges), columns = [], rows = new Map();
  for (const it of edges) into.get(it.to).push(it.from);
  for (const [name, deep] of depth) (columns[deep] ||= []).push(name);
  for (const column of columns) {
    const wish = (name) => into.get(name).reduce((sum, it) => sum + rows.get(it), 0) / (into.get(name).length || 1);
    const middle = column.length / 2;
    column.sort((a, b) => wish(a) - wish(b) || (a < b ? -1 : 1)).forEach((name, k) => rows.set(name, k - middle + 0.5));
  }
  return { depth, rows, columns };
}
function picture(boxes, edges, here) {
  const { depth, rows, columns } = placed(boxes, edges);
  const width = Math.max(104, ...[...boxes.values()].map((it) => 22 + 7.9 * Math.max(...[...it.texts, it.marks].map((text) => text.length))));
  const tall = Math.max(...columns.map((it) => it.length));
  const x = (name) => 8 + depth.get(name) * (width + BOX.across), y = (name) => 8 + (rows.get(name) + tall / 2 - 0.5) * (BOX.high + BOX.down);
  const wide = 16 + columns.length * (width + BOX.across) - BOX.across, high = 16 + tall * (BOX.high + BOX.down) - BOX.down;
  const it = svg("svg", { width: wide, height: high, viewBox: `0 0 ${wide} ${high}`, role: "img", "aria-label": t`Genealogy of ${nodeInWords(here)}` },
    svg("defs", {}, svg("marker", { id: "tip", viewBox: "0 0 8 8", refX: 8, refY: 4, markerWidth: 8, markerHeight: 8, orient: "auto" },
      svg("path", { class: "tip", d: "M0 0L8 4L0 8z" }))),
    edges.map((edge) => edgeLine(x(edge.from) + width, y(edge.from) + BOX.high / 2, x(edge.to), y(edge.to) + BOX.high / 2)),
    edges.map((edge) => svg("text", { class: "amount", "text-anchor": "middle", x: x(edge.to) - BOX.across / 2,
      y: y(edge.to) + BOX.high / 2 + amountDrop(x, y, edge, width) - 4 }, `${grouped(edge.amount)} ${unitOf(boxes, edge)}`)),
    [...boxes].map(([name, box]) => nodeBox(box, x(name), y(name), width)));
  Object.assign(it.style, { maxWidth: "100%", minWidth: `${Math.round(wide * 0.75)}px`, height: "auto" });
  return scrolledToHere(h("div", { class: "picture", tabindex: 0, role: "group", "aria-label": t`Picture, can be scrolled`,
    "data-of": `${here} ${boxes.size}` }, it));
}
function scrolledToHere(frame) {
  const before = [...view.querySelectorAll(".picture")].find((it) => it.dataset.of === frame.dataset.of), was = before && [before.scrollLeft, before.scrollTop];
  onceDrawn(() => {
    const box = frame.querySelector(".here"), outer = frame.getBoundingClientRect();
    if (was) { [frame.scrollLeft, frame.scrollTop] = was; return; }
    if (!box) return;
    const inner = box.getBoundingClientRect();
    frame.scrollLeft += inner.left + inner.width / 2 - outer.left - frame.clientWidth / 2;
    frame.scrollTop += inner.top + inner.height / 2 - outer.top - frame.clientHeight / 2;
  });
  return frame;
}
function amountDrop(x, y, edge, width) {
  const run = x(edge.to) - x(edge.from) - width;
  return ((y(edge.from) - y(edge.to)) * BOX.across) / 2 / run;
}
const edgeLine = (x1, y1, x2, y2) => svg("line", { class: "edge", x1, y1, x2, y2, "marker-end": "url(#tip)" });
function nodeBox({ texts: [id, sub, stock], marks, tone, isHere, isOfLots, place }, x, y, width) {
  const text = (style, down, words) => svg("text", { class: style, x: x + width / 2, y: y + down, "text-anchor": "middle" }, words);
  return svg(place ? "a" : "g", place ? { href: `#${place}` } : {},
    svg("rect", { class: ["box", tone, isHere ? "here" : ""].join(" ").trim(), x, y, width, height: BOX.high, rx: isOfLots ? 14 : 2 }),
    text("name", 17, id), text("sub", 31, sub), stock && text("sub", 44, stock), marks && text("word", 56, marks));
}
const FORMS_OF_RECORD = ["tables", "text"];
function recordCard(batch, ...more) {
  const isPlain = filterOf("record", FORMS_OF_RECORD) === "text";
  const tools = [pill(batch.closed ? t`closed` : wordOf(batch.state), TONES[batch.state]),
    h("span", { class: "noprint" }, link("shift/" + batch.batch, t`To the shift's view`)),
    filterChoice(t`Form of the record`, "record", FORMS_OF_RECORD),
    csvButton("record", `record-${batch.batch}`, () => rowsOfRecord(batch.record, batch.lines.filter(isMaterial))), ...more, button(t`Print`, () => print())];
  const content = isPlain ? h("div", { class: "body" }, h("pre", {}, batch.record.text)) : recordTables(batch);
  const it = card(t`Batch record ${batch.batch}`, tools, printedLine(), content, signatures(t`batch record ${batch.batch}`));
  it.classList.add("record");
  return it;
}
const printedLine = () => h("p", { class: "printed" });
addEventListener("beforeprint", () => {
  for (const it of document.querySelectorAll(".printed")) {
    const printed = t`Printed ${moment(desk.time(), true)} by ${operator.value.trim() || t`nobody named`}, of the web page of the desk at ${location.host}.`;
    it.textContent = deskName === null ? printed : `${deskName}. ${printed}`;
  }
});
const SIGNED = ["Made by", "Checked by", "Released by"];
const signatures = (what) => h("div", { class: "sign" }, h("b", {}, t`Signed of ${what}`),
  SIGNED.map((it) => h("div", {}, h("span", {}, t(it)), h("span", {}, t`Date`), h("span", {}, t`Signature`))));
function recordTables({ record, ...batch }) {
  const number = (it) => h("td", { class: "num" }, it), stamp = (it) => [stampCell(it), cell(it.note)];
  const booking = ({ words: [lot, def, amount, unit] }) => [idCell(lot), cell(def), numberCell(amount, unit)];
  const what = (it) => [cell(wordOf(it.kind)), cell(it.def || it.name || it.path), it.amount ? numberCell(it.amount, it.unit) : cell(), cell(it.value || "")];
  const recipe = record.lines.map((it, k) => row("line " + k, [number(k + 1), ...what(it)]));
  const events = record.events.map((it) => row(it.seq, [number(it.seq), cell(eventInWords(it.what)), ...stamp(it)]));
  const consumed = record.consumed.map((it) => row(it.seq, [number(it.seq), ...booking(it), ...stamp(it)]));
  const produced = record.produced.map((it) => row(it.seq, [number(it.seq), ...booking(it), numberCell(it.words[5], it.words[3]), ...stamp(it)]));
  const total = (it) => [cell(wordOf(it.kind)), idCell(it.def), numberCell(it.asked, it.unit),
    excess(it) ? overCell(it, `${grouped(it.booked)} ${it.unit}, `) : numberCell(it.booked, it.unit)];
  const totals = batch.lines.filter(isMaterial).map((it) => row(`total ${it.kind} ${it.def}`, total(it)));
  return [recordFacts(batch, record.released),
    h("h3", {}, t`Control recipe`), table(["#No", "Kind", "What", "#Amount", "Value"], recipe, ""),
    h("h3", {}, t`Events`), table(["#Number", "Event", "When, by", "Note"], events, t`None.`),
    h("h3", {}, t`Consumed`), table(["#Number", "Lot and part", "Material", "#Amount", "When, by", "Note"], consumed, t`Nothing.`),
    h("h3", {}, t`Produced`), table(["#Number", "Lot", "Material", "#Amount", "#Scrapped", "When, by", "Note"], produced, t`Nothing.`),
    h("h3", {}, t`Totals`), table(["In or out", "Material", "#Asked", "#Booked"], totals, "")];
}
function recordFacts(batch, released) {
  return facts(fact(t`Order`, link("planner/" + batch.order, batch.order)), fact(t`Recipe`, `${batch.recipe} ${batch.version}`),
    fact(t`Size`, grouped(batch.size)), fact(t`State`, wordOf(batch.state)), fact(t`Attempt`, batch.attempt), fact(t`Phases`,
      t`${batch.next - 1} of ${batch.phases}`),
    fact(t`Released^when`, moment(released.at, true)), fact(t`By`, released.by), released.note && fact(t`Note`, released.note));
}
const stampCell = (it) => h("td", { class: "stamp" }, h("span", {}, h("span", { class: "when" }, moment(it.at, true)), " ", it.by));
const OF_BATCH = [90, 11], OF_PHASE = [62, 7];
const codeOfPhase = (batch, number) => `${batch}/${number}`;
const tickBox = () => cell(h("i", { class: "tickbox" }));
const toWrite = () => h("td", { class: "towrite" });
function goods(lines, names) {
  const rows = lines.map((it) => row(`${it.kind} ${it.def}`, [tickBox(), idCell(it.def, names.get(it.def) && h("div", { class: "under" }, names.get(it.def))),
    numberCell(it.asked, it.unit), toWrite()]));
  return table(["Done", "Material", "#Asked", "Lots and amounts"], rows, t`Nothing.`);
}
function procedure(batch) {
  let number = 0;
  const line = (it) => {
    if (it.kind === "par") return row(`par ${it.name}`, [h("td"), cell(), cell(it.name, ": ", h("b", {}, it.value)), cell(), toWrite()]);
    number += 1;
    return row(`phase ${number}`, [h("td", { class: "num" }, number), tickBox(), cell(h("b", {}, it.path)),
      cell(barcode(codeOfPhase(batch.batch, number), ...OF_PHASE)), toWrite()]);
  };
  return table(["#No", "Done", "Phase or parameter", "Bar code", "When, by, value"], batch.lines.filter((it) => !isMaterial(it)).map(line), "");
}
async function showSheet(id) {
  try {
    const batch = await desk.batch(id), order = await desk.order(batch.order), recipe = await desk.recipe(batch.recipe, batch.version);
    const lines = batch.lines.filter(isMaterial), names = new Map();
    for (const it of [recipe.product, ...lines.map((line) => line.def)]) names.set(it, (await desk.definition(it))?.name || "");
    const head = h("div", { class: "facts" }, fact(t`Order`, order.order), fact(t`Product`, `${recipe.product} ${names.get(recipe.product)}`),
      fact(t`Size`, `${grouped(batch.size)} ${recipe.unit || ""}`), fact(t`Recipe`, `${batch.recipe} ${batch.version} ${recipe.title}`), fact(t`Due`, dated(order.due)),
      fact(t`Priority`, order.priority), fact(t`Attempt`, batch.attempt));
    openPaper(t`Sheet of ${id}`, [h("section", { class: "sheet" }, h("div", { class: "head" }, h("h2", {}, t`Batch ${id}`), barcode(id, ...OF_BATCH)),
      printedLine(), head, h("h3", {}, t`Goes in`), goods(lines.filter((it) => it.kind === "in"), names), h("h3", {}, t`Procedure`), procedure(batch),
      h("h3", {}, t`Comes out`), goods(lines.filter((it) => it.kind === "out"), names), signatures(t`batch ${id}`))], t`Batch ${id}`);
  } catch (error) { notice("bad", whyNot(error)); }
}
const stockIn = (parts) => parts.reduce((sum, it) => sum + it.stock, 0);
class Plan {
  constructor(id) { Object.assign(this, { id, off: new Set(), inputs: [], element: h("div", { class: "inputs" }) }); }
  async read() {
    await desk.look();
    const batch = await desk.batch(this.id), own = new Set(batch.produced.map((it) => it.lot));
    const inputs = [];
    for (const it of openInputs(await desk.linesNow(this.id))) {
      inputs.push({ ...it, name: (await desk.definition(it.def))?.name || "", parts: await this.freeParts(it.def, it.left, own) });
    }
    this.inputs = inputs;
    this.draw();
  }
  async freeParts(def, amount, own) {
    let lots, parts, wanted = 0;
    do {
      lots = await desk.stock(def, wanted += PAGE);
      parts = lots.flatMap(partsOfLot).filter((it) => !it.barred && !own.has(it.lot));
    } while (lots.more && stockIn(parts.filter((it) => this.isOn(it))) < amount);
    return parts;
  }
  isOn(part) { return !this.off.has(keyOfPart(part)); }
  taken(input) { return takenOf(input.parts.filter((it) => this.isOn(it)), input.left); }
  bookings(note) {
    return this.inputs.flatMap((input) => this.taken(input).taken.map(({ lot, sub, amount }) => ({ input, amount,
      what: t`${grouped(amount)} ${input.unit} of ${lot} consumed`, fields: noted({ do: "consume", batch: this.id, lot, sub, amount }, note) })));
  }
  text() { return JSON.stringify(this.inputs.map((it) => [it.def, it.booked, this.taken(it).short, this.bookings().map((one) => one.fields)])); }
  draw() {
    const name = document.activeElement.getAttribute("aria-label");
    this.element.replaceChildren(...(this.inputs.length ? this.inputs.map((it) => this.inputBox(it)) : [h("p", { class: "soft" }, t`Nothing is left to book.`)]));
    const again = name && [...this.element.querySelectorAll("input")].find((it) => it.getAttribute("aria-label") === name);
    if (again) again.focus();
  }
  inputBox(input) {
    const { taken, short } = this.taken(input), amounts = new Map(taken.map((it) => [keyOfPart(it), it.amount])), { def, name, unit, left, asked } = input;
    const shown = input.parts.filter((it) => amounts.has(keyOfPart(it)) || !this.isOn(it));
    return h("section", { class: "input" }, h("h3", {}, def, name && [" ", h("span", { class: "soft small" }, name)]),
      h("p", { class: "soft small" }, left === asked ? t`${grouped(left)} ${unit} left` : t`${grouped(left)} ${unit} left of ${grouped(asked)} ${unit}`,
        short > 0 && [" ", pill(t`${grouped(short)} ${unit} short`, "bad")]),
      shown.map((it) => this.partBox(it, amounts.get(keyOfPart(it)) || 0, unit)));
  }
  partBox(part, amount, unit) {
    const key = keyOfPart(part), tick = (event) => {
      if (event.target.checked) this.off.delete(key); else this.off.add(key);
      this.draw();
    };
    return h("label", { class: "part" }, h("input", { type: "checkbox", checked: this.isOn(part), "aria-label": t`Take ${key}`, onchange: tick }),
      h("span", {}, `${placeOfPart(part)}${cameInWords(part)}`), h("b", {}, !amount ? t`none` : amount < part.stock ? t`${grouped(amount)} of ${grouped(part.stock)} ${unit}` : `${grouped(amount)} ${unit}`));
  }
}
async function bookPlan(plan, note, isWanted) {
  const before = plan.text();
  try { await plan.read(); } catch (error) { return `${whyNot(error)} ${t`Nothing was booked.`}`; }
  if (plan.text() !== before) return t`What is booked or in stock has changed meanwhile. Look at the amounts, and press once more.`;
  const bookings = plan.bookings(note), booked = new Map(plan.inputs.map((it) => [it.def, it.booked]));
  if (!bookings.length) return t`There is nothing that could be booked.`;
  const why = async (k) => {
    const { input, amount } = bookings[k], line = (await desk.linesNow(plan.id)).find((it) => it.kind === "in" && it.def === input.def);
    if (!isWanted()) return t`The form was closed.`;
    if (line.booked !== booked.get(input.def)) return t`Somebody else booked ${input.def} on the batch meanwhile.`;
    booked.set(input.def, line.booked + amount);
    return null;
  };
  const { count, wrong } = await bookEach(bookings, why);
  const number = grouped(count), all = counted(bookings.length, "booking", "bookings");
  const far = count === 1 ? t`${number} of ${all} on ${plan.id} is booked` : t`${number} of ${all} on ${plan.id} are booked`;
  if (!wrong) { notice("good", `${far}. ${t`The last is number ${grouped(desk.seq)}.`}`); return null; }
  if (wrong === LOST) {
    notice("bad", `${far}. ${t`No answer came to the next one: send it again, and then book the rest.`}`);
    return LOST;
  }
  if (isWanted()) await plan.read().catch(() => {}); else notice("bad", `${far}. ${wrong}`);
  return `${far}. ${bookings[count].what}: ${wrong}`;
}
async function bookInputs(id) {
  const plan = new Plan(id);
  try { await plan.read(); } catch (error) { return notice("bad", whyNot(error)); }
  const fields = [say(t`The oldest lots first. A tick that is taken away leaves a lot out.`), ownField(plan.element), noteField(t`Note on each booking, if any`)];
  let mine = null;
  form(t`Book all inputs of ${id} as asked`, fields, t`Book all`, ({ note }) => bookPlan(plan, note, () => openForm() === mine));
  mine = openForm();
}
const closing = (it) => (it.closes ? t`closes` : h("span", { class: "over" }, t`doesn't close`));
const where = (places, unit) => cell(places.map((it) => h("div", {}, `${it.place || t`no place`}: ${grouped(it.stock)} ${unit}`)));
function balanceOfMaterial(it) {
  const amounts = [it.received, it.produced, it.others, it.consumed, it.scrapped, it.stock].map((n) => numberCell(n, it.unit));
  return row(`material ${it.def}`, [idCell(it.def), numberCell(it.count), ...amounts, where(it.places, it.unit), cell(closing(it))]);
}
function balanceOfLot(it) {
  const unit = it.unit || "", { entered, left } = it;
  const amounts = [entered.received, entered.produced, entered.split + entered.merged, left.consumed, left.scrapped, left.split + left.merged, it.stock];
  const states = [it.held && pill(t`on hold`, "warn"), it.recalled && pill(t`recalled`, "bad")];
  return row(it.lot, [idCell(it.lot), cell(it.def), ...amounts.map((n) => numberCell(n, unit)), cell(states)]);
}
async function showBalance(kind, id, what) {
  try {
    const lots = await desk.balance(kind, id), materials = materialsOf(lots);
    const ofMaterials = table(["Material", "#Lots", "#Received", "#Produced", "#Of other lots", "#Consumed", "#Scrapped", "#In stock", "Where", "Balance"],
      materials.map(balanceOfMaterial), t`Nothing came of it.`);
    const ofLots = table(["Lot", "Material", "#Received", "#Produced", "#Of lots", "#Consumed", "#Scrapped", "#To lots", "#In stock", "State"], lots.map(balanceOfLot), t`None.`);
    const head = h("div", { class: "facts" }, fact(t`Materials`, grouped(materials.length)), fact(t`Lots`, grouped(lots.length)),
      fact(t`Balance`, materials.every((it) => it.closes) ? t`closes` : t`doesn't close`));
    const sheet = h("section", { class: "sheet balance" }, h("h2", {}, t`Balance of ${what}`), printedLine(), head,
      h("p", { class: "soft small" }, t`What came in of each material is what left it and what is in stock. Lots that were split off or merged are among these.`),
      h("h3", {}, t`Materials`), ofMaterials, h("h3", {}, counted(lots.length, "lot", "lots")), ofLots, signatures(t`the balance of ${what}`));
    openPaper(t`Balance`, [sheet], t`Balance of ${what}`, [csvButton("balance", `balance-of-${id}`, () => rowsOfBalance(lots))]);
  } catch (error) { notice("bad", whyNot(error)); }
}
const balanceButton = (kind, id, what) => button(t`Balance`, () => showBalance(kind, id, what), null, { "aria-label": t`Balance of ${what}` });
const rowOf = (it) => row(it.seq, [numberCell(it.seq), momentCell(it.at), cell(it.by), cell(commandWord(it.do)), cell(fieldsInWords(it.do, it.fields)), cell(it.note)]);
async function showHistory(id, what) {
  try {
    const commands = await desk.history(id);
    const sheet = h("section", { class: "sheet history" }, h("h2", {}, t`History of ${what}`), printedLine(),
      h("p", { class: "soft small" }, t`Each command with a reference that names it: ${counted(commands.length, "command", "commands")}.`),
      table(["#Number", "When", "By", "What", "Details", "Note"], commands.map(rowOf), t`No command with a reference names it.`));
    const saved = () => commands.map((it) => ({ ...it, details: fieldsInWords(it.do, it.fields) }));
    openPaper(t`History`, [sheet], t`History of ${what}`, [csvButton("history", `history-of-${id}`, saved)]);
  } catch (error) { notice("bad", whyNot(error)); }
}
const historyButton = (id, what) => button(t`History`, () => showHistory(id, what), null, { "aria-label": t`History of ${what}` });
const nameOfTicks = (of) => `ticks.${desk.name || ""}.${of}`;
function tick(of, key, isOn) {
  const others = kept(nameOfTicks(of), []).filter((it) => it !== key);
  keep(nameOfTicks(of), isOn ? [...others, key] : others);
}
const byPlace = (a, b) => (a.place < b.place ? -1 : a.place > b.place ? 1 : a.key < b.key ? -1 : 1);
const partsToSee = (lots) => lots.flatMap((lot) => lot.sublots.filter((it) => it.stock).map((it) => ({ ...it, key: `${lot.lot}/${it.no}`, lot: lot.lot,
  def: lot.def, held: lot.held, recalled: lot.recalled }))).sort(byPlace);
function totals(parts, units) {
  const all = new Map();
  for (const it of parts) {
    const total = all.get(it.def) || { stock: 0, count: 0, unit: units.get(it.lot) };
    all.set(it.def, { ...total, stock: total.stock + it.stock, count: total.count + 1 });
  }
  return [...all].sort().map(([def, it]) => row(`total ${def}`, [idCell(link("warehouse/" + def, def)), numberCell(it.stock, it.unit), numberCell(it.count)]));
}
const STAND_HEADS = { place: "Place", lot: "Lot", material: "Material", stock: "#Amount" };
function standsCard(of, lots, nodes) {
  const order = listOrder(STAND_HEADS), parts = sortedBy(partsToSee(lots), partValue(order.by), order.isBack);
  const units = new Map(nodes.filter((it) => it.lot).map((it) => [it.lot, it.unit]));
  const seen = new Set(kept(nameOfTicks(of), [])), told = h("span", { class: "soft small" });
  const count = () => { told.textContent = t`${grouped(parts.filter((it) => seen.has(it.key)).length)} of ${counted(parts.length, "row", "rows")} ticked`; };
  const ticked = (it, isOn) => {
    if (isOn) seen.add(it.key); else seen.delete(it.key);
    tick(of, it.key, isOn);
    count();
  };
  const box = (it) => h("input", { type: "checkbox", "aria-label": t`${it.key} at ${it.place || t`no place`} is seen`, checked: seen.has(it.key),
    onchange: (event) => ticked(it, event.target.checked) });
  const cells = (it) => [cell(box(it)), cell(it.place || h("span", { class: "soft" }, t`no place`)), idCell(lotLink(it.lot, it.no)), cell(it.def),
    numberCell(it.stock, units.get(it.lot)), cell(it.held && pill(t`on hold`, "warn")), cell(it.recalled && pill(t`recalled`, "bad"))];
  count();
  const rows = parts.map((it) => row(it.key, cells(it)));
  const csv = csvButton("stands", `goods-of-${of.split(" ")[1]}`, () => parts.map((it) => ({ ...it, unit: units.get(it.lot), seen: seen.has(it.key) })));
  return card(t`Where its goods are`, parts.length > 0 && [told, csv],
    parts.length > 1 && h("div", { class: "body row filter" }, order.field(t`Sort the goods`)),
    table(["Seen", "Place", "Lot", "Material", "#Amount", "On hold", "Recalled"], rows, t`Nothing of it is in stock.`, false, order.heads),
    parts.length > 0 && [h("h3", {}, t`In all`), table(["Material", "#Amount", "#Parts"], totals(parts, units), "", true)]);
}
async function runningCard(batches) {
  const open = new Map((await desk.batches(Infinity)).map((it) => [it.batch, it]));
  const running = batches.filter((it) => open.has(it.batch)).map((it) => open.get(it.batch));
  const rows = running.map((it) => row(it.batch, [idCell(batchLink(it.batch)), cell(pill(wordOf(it.state), TONES[it.state])), cell(it.order),
    cell(it.phase ? t`${it.phase}, ${it.next} of ${it.phases}` : t`all done`)]));
  return card(t`Batches that still run`, null, table(["Batch", "State", "Order", "Next phase"], rows, t`None.`));
}
async function needsOf(orders) {
  const needs = [];
  for (const it of orders) needs.push(...(await desk.needs(it.order)));
  const free = new Map(needs.map((it) => [it.def, it.usable]));
  const demands = needs.map((it) => ({ def: it.def, unit: it.unit || "", amount: it.asked }));
  return inAll(demands).map((it) => ({ ...it, free: free.get(it.def) }));
}
function needsTable(needs) {
  const short = (it) => h("td", { class: "num" }, it.free < it.asked && h("span", { class: "over" }, `${grouped(it.asked - it.free)} ${it.unit}`));
  const rows = needs.map((it) => row(`need ${it.def}`, [idCell(it.def), numberCell(it.asked, it.unit), numberCell(it.free, it.unit), short(it)]));
  return h("div", { class: "needs" }, table(["Input", "#Asked", "#Free", "#Short"], rows, t`No input is asked.`, true));
}
const batchOf = (order) => idOf("B", order.replace(/^O-?(?=.)/, ""));
const fieldsOf = (order, batch, note) => noted({ do: "release", order, batch }, note);
const inWords = (it) => t`${it.recipe} ${it.version}, size ${grouped(it.size)}, due ${dated(it.due)}`;
async function release(order) {
  let needs;
  try { await desk.look(); needs = await needsOf([order]); } catch (error) { return notice("bad", whyNot(error)); }
  const text = say(`${inWords(order)}. ${t`The shift can start its batch at once.`}`), batch = idField("batch", t`New batch`, batchOf(order.order));
  const fields = [text, ownField(needsTable(needs)), batch, noteField()];
  bookingForm(t`Release order ${order.order}`, fields, t`Release`,
    (v, tell) => tell(t`Order ${order.order} released as ${v.batch}`, fieldsOf(order.order, v.batch, v.note)));
}
async function releaseSeveral(orders, isDone) {
  let needs;
  try { await desk.look(); needs = await needsOf(orders); } catch (error) { return notice("bad", whyNot(error)); }
  const batches = orders.map((it) => ({ ...idField(`batch ${it.order}`, t`New batch of ${it.order}: ${inWords(it)}`, batchOf(it.order)) }));
  const fields = [say(t`Their batches can be started at once.`), ownField(needsTable(needs)), ...batches, noteField(t`Note on each, if any`)];
  const done = new Set();
  let mine = null;
  const take = async ({ note, ...v }) => {
    const left = orders.filter((it) => !done.has(it.order));
    const bookings = left.map((it) => ({ what: t`Order ${it.order} released`, fields: fieldsOf(it.order, v[`batch ${it.order}`], note) }));
    const isWanted = () => openForm() === mine;
    const { count, wrong } = await bookEach(bookings, async () => (isWanted() ? null : t`The form was closed.`));
    for (const it of left.slice(0, count)) { done.add(it.order); isDone(it.order); }
    await show();
    const number = grouped(done.size), all = counted(orders.length, "order", "orders");
    const far = done.size === 1 ? t`${number} of ${all} is released` : t`${number} of ${all} are released`;
    if (!wrong) { notice("good", `${far}.`); return null; }
    if (wrong === LOST) notice("bad", `${far}. ${t`No answer came to the next one: send it again, and then release the rest.`}`);
    else if (!isWanted()) notice("bad", `${far}. ${wrong}`);
    return wrong === LOST ? LOST : `${far}. ${left[count].order}: ${wrong}`;
  };
  form(t`Release ${counted(orders.length, "order", "orders")}`, fields, t`Release all`, take);
  mine = openForm();
}
const MOST_RECIPES = 60, SOON = 200, MOST_LACKS = 2;
let recipesRead = new Map(), stocksRead = null;
const versionOf = (it) => `${it.recipe} ${it.version}`;
async function readWants(orders, areOpen) {
  const all = new Map(orders.map((it) => [versionOf(it), it])), read = new Map();
  for (const [name, it] of [...all].slice(0, MOST_RECIPES)) read.set(name, await desk.recipeOnce(it.recipe, it.version));
  recipesRead = read;
  if (areOpen) stocksRead = new Map((await desk.materials()).map((it) => [it.def, it]));
}
function writeLack(element, order) {
  const recipe = recipesRead.get(versionOf(order)), lacks = recipe && stocksRead ? lacksOf(recipe, order.size, stocksRead) : [];
  const named = lacks.slice(0, MOST_LACKS).map((it) => `${it.def} ${grouped(it.short)} ${it.unit}`).join(", "), left = lacks.length - MOST_LACKS;
  element.textContent = !lacks.length ? "" : left > 0 ? t`short: ${named} and ${left} more` : t`short: ${named}`;
}
function writeUnit(element, order) { element.textContent = recipesRead.get(versionOf(order))?.unit || ""; }
async function wantsOf(orders, areOpen) {
  const reading = readWants(orders, areOpen).catch(() => {}), drawn = [];
  const written = (tag, name, write) => (order) => {
    const it = h(tag, { class: name });
    write(it, order);
    drawn.push(() => write(it, order));
    return it;
  };
  onceDrawn(async () => {
    await reading;
    await released();
    for (const draw of drawn) draw();
  });
  await Promise.race([reading, new Promise((done) => { setTimeout(done, SOON); })]);
  return { lack: areOpen ? written("div", "over small", writeLack) : () => null, unit: written("span", null, writeUnit) };
}
const LINE_KINDS = { in: ["Material", "Amount"], out: ["Material", "Amount"], par: ["Name", "Value"], phase: ["Unit^equipment", "Operation", "Phase"] };
const ADDED = { in: "Add an input", out: "Add an output", par: "Add a parameter", phase: "Add a phase" };
function plainField(value, name) {
  const it = h("input", { "aria-label": name });
  it.value = value;
  return it;
}
function wordField(kind, k, value, name, materials) {
  const what = LINE_KINDS[kind][k];
  if (what !== "Material") {
    const isAmount = what === "Amount", isId = kind === "phase" || what === "Name";
    const it = h("input", { "aria-label": name, placeholder: t(what), "data-id": isId, inputmode: isAmount ? "numeric" : null, autocomplete: "off",
      spellcheck: "false", maxlength: isAmount ? 16 : isId ? 24 : 60 });
    it.value = value;
    return it;
  }
  const option = (id, text) => h("option", { value: id, selected: id === value }, text);
  return h("select", { "aria-label": name }, !value && option("", t`choose a material`), value && !materials.has(value) && option(value, value),
    [...materials.values()].map((it) => option(it.def, it.name ? `${it.def}: ${it.name}` : it.def)));
}
function chooseLines(element, text, reading) {
  const materials = new Map();
  let lines = lineWords(text.value), isOwn = false;
  function write() {
    isOwn = true;
    text.value = lines.map(lineOf).join("\n");
    text.dispatchEvent(new Event("input", { bubbles: true }));
    isOwn = false;
  }
  function changed(at) {
    write();
    draw();
    element.querySelectorAll(".line")[at]?.querySelector(".words > *").focus();
  }
  function lineRow(line, k) {
    const name = (what) => t`${what} of line ${k + 1}`, { kind, words } = line, unit = kind && materials.get(words[0])?.unit;
    const put = (at) => ({ target }) => { words[at] = target.matches("[data-id]") ? target.value.trim().toUpperCase() : target.value; write(); };
    const fields = !kind ? [plainField(words[0], t`Line ${k + 1}`)]
      : LINE_KINDS[kind].map((what, at) => wordField(kind, at, words[at], name(t(what)), materials));
    fields.forEach((it, at) => it.addEventListener("input", put(at)));
    if (kind === "in" || kind === "out") fields[0].addEventListener("change", (event) => { words[0] = event.target.value; changed(k); });
    const choose = ({ target }) => {
      const before = kind ? words : words[0].split(/\s+/).slice(1);
      lines[k] = { kind: target.value, words: LINE_KINDS[target.value].map((_, at) => before[at] || "") };
      changed(k);
    };
    const kinds = Object.keys(LINE_KINDS).map((it) => h("option", { value: it, selected: it === kind }, wordOf(it)));
    const up = () => { [lines[k - 1], lines[k]] = [lines[k], lines[k - 1]]; changed(k - 1); };
    const unknown = !kind && h("option", { value: "", selected: true }, "?");
    return h("div", { class: "line" }, h("select", { "aria-label": name(t`Kind`), onchange: choose }, unknown, kinds),
      h("div", { class: "words" }, fields, unit && h("span", { class: "soft" }, unit)),
      button("\u2191", up, null, { "aria-label": t`Line ${k + 1} up`, disabled: k === 0 }),
      button("\u00d7", () => { lines.splice(k, 1); changed(Math.min(k, lines.length - 1)); }, null, { "aria-label": t`Take line ${k + 1} away` }));
  }
  function draw() {
    const add = (kind) => { lines.push({ kind, words: LINE_KINDS[kind].map(() => "") }); changed(lines.length - 1); };
    element.replaceChildren(h("b", {}, t`Lines, one by one`), ...lines.map(lineRow),
      h("div", { class: "row" }, Object.keys(ADDED).map((it) => button(t(ADDED[it]), () => add(it)))));
  }
  text.addEventListener("input", () => { if (!isOwn) { lines = lineWords(text.value); draw(); } });
  draw();
  reading.then((known) => {
    const name = element.contains(document.activeElement) && document.activeElement.getAttribute("aria-label");
    for (const it of known) materials.set(it.def, it);
    draw();
    if (name) [...element.querySelectorAll("[aria-label]")].find((it) => it.getAttribute("aria-label") === name)?.focus();
  });
}
const fromField = ({ def, unit }, part, mayBeBarred) => lotField({ def, unit, part, parts: [part], mayBeBarred });
function scrap(part, known) {
  bookingForm(t`Scrap ${known.def}`, [fromField(known, part, true), amountField(known.unit), noteField(t`Why`)], t`Scrap`,
    ({ from: { lot, sub }, amount, note }, tell) => tell(t`${grouped(amount)} ${known.unit} of ${lot} scrapped`,
      noted({ do: "scrap", lot, sub, amount }, note)), { isGrave: true });
}
function moveGoods(part, known) {
  let offered = part.stock;
  const change = (inputs, it) => { if (Number(inputs.amount.value) === offered) inputs.amount.value = offered = it.stock; };
  bookingForm(t`Move ${known.def}`, [{ ...fromField(known, part, true), change }, say(t`What is moved becomes another part of the same lot.`),
    amountField(known.unit, part.stock), textField("place", t`New place`, { required: true }), noteField()], t`Move`,
  ({ from: { lot, sub }, amount, place, note }, tell) => tell(t`${grouped(amount)} ${known.unit} of ${lot} brought to ${place}`,
    noted({ do: "divide", lot, sub, amount, place }, note)));
}
function split(part, known) {
  bookingForm(t`Split ${known.def}`, [fromField(known, part), say(t`The amount becomes a lot of its own.`), amountField(known.unit),
    newLotField("new", t`New lot`), placeField(), noteField()], t`Split`,
    ({ from: { lot, sub }, amount, place, note, ...v }, tell) => tell(t`${grouped(amount)} ${known.unit} of ${lot} split off as ${v.new}`,
      noted({ do: "split", lot, sub, amount, new: v.new, place }, note)));
}
const GOODS_BY = ["by material", "by place"];
const byChoice = (by) => h("div", { class: "body row filter" }, choice(t`By what goods are listed`, GOODS_BY, by,
  (it) => go("warehouse", it === "by place" && "place")));
function cameCell(at) {
  const age = at !== null && h("div", { class: "soft small" }, ageInDays(at, desk.time()));
  return h("td", { class: "when" }, h("span", {}, dated(dayOf(at)), age));
}
const MOST_READ_LOTS = 3000;
async function allParts() {
  const parts = [], left = [];
  let count = 0;
  for (const { def, name, unit, lots } of (await desk.materials()).filter((it) => it.lots > 0)) {
    if (count + lots > MOST_READ_LOTS) { left.push(def); continue; }
    count += lots;
    for (const lot of await desk.stock(def, Infinity)) {
      const barred = lot.held ? t`on hold` : lot.recalled ? t`recalled` : "";
      parts.push(...lot.sublots.filter((it) => it.stock > 0).map((it) => ({ ...it, ...lot, stock: it.stock, sub: it.no, def, name, unit, barred })));
    }
  }
  return { parts, left };
}
async function placeNamed(typed) {
  const name = typed.trim().toLowerCase(), all = new Set((await allParts()).parts.map((it) => it.place));
  const begun = [...all].filter((it) => it.toLowerCase().startsWith(name));
  return (name && (begun.find((it) => it.toLowerCase() === name) || (begun.length === 1 && begun[0]))) || null;
}
const placeLink = (place, text) => link(`warehouse/place/${encodeURIComponent(place)}`, text || place || t`no place`);
async function places(shown) {
  const { parts, left } = await allParts(), all = partsByPlace(parts), at = shown ?? (isNarrow() ? undefined : all[0]?.place);
  const rows = all.map((it) => row(encodeURIComponent(it.place), [cell(placeLink(it.place)), numberCell(it.parts.length), numberCell(it.materials)],
    `warehouse/place/${encodeURIComponent(it.place)}`, it.place === at));
  const csv = csvButton("places", "places", () => all);
  const list = card(t`Places`, all.length > 0 && csv, byChoice("by place"), table(["Place", "#Parts", "#Materials"], rows, t`Nothing is in stock.`, true),
    left.length > 0 && none(t`These materials have too many lots to be read here: ${left.join(", ")}.`));
  return ["list", listed(list), at !== undefined && h("div", { class: "stack" }, placeCard(at, all.find((it) => it.place === at)?.parts || []))];
}
const PLACE_HEADS = { came: "Came", lot: "Lot and part", material: "Material", stock: "#Stock" };
function placeCard(place, parts) {
  const name = place || "no place", marks = (it) => it.barred && [" ", pill(it.barred, it.held ? "warn" : "bad")];
  const buttons = (it) => [button(t`Label`, () => showLabels(it.lot, it.sub)), button(t`Move`, () => moveGoods(it, it)),
    button(t`Scrap`, () => scrap(it, it), "bad")];
  const order = listOrder(PLACE_HEADS), sorted = sortedBy(parts, partValue(order.by), order.isBack);
  const rows = sorted.map((it) => row(`${it.lot}/${it.sub}`, [idCell(lotLink(it.lot, it.sub), marks(it)),
    cell(link("warehouse/" + it.def, it.def), it.name && h("div", { class: "soft small" }, it.name)), cameCell(it.at), numberCell(it.stock, it.unit),
    buttonsCell(buttons(it))]));
  const totals = new Map();
  for (const it of parts) totals.set(it.def, { ...it, sum: (totals.get(it.def)?.sum || 0) + it.stock });
  const sums = [...totals.values()].map((it) => row(`total ${it.def}`, [idCell(it.def), numberCell(it.sum, it.unit)]));
  const csv = csvButton("stands", `place-${name}`, () => parts.map((it) => ({ ...it, place, seen: "" })));
  return card(place ? t`At ${place}` : t`At no place`, parts.length > 0 && [h("span", { class: "soft small" }, counted(parts.length, "part", "parts")), csv],
    rows.length > 1 && h("div", { class: "body row filter" }, order.field(t`Sort the lots`)),
    table(["Lot and part", "Material", "Came", "#Stock", ""], rows, t`Nothing in stock is there.`, false, order.heads),
    parts.length > 0 && [h("h3", {}, t`In all`), table(["Material", "#Stock"], sums, "", true)]);
}
const KINDS = { lots: "lot", batches: "batch", orders: "order", recalls: "recall", definitions: "material", recipes: "recipe" };
const REST = 250;
const option = (id, what) => h("option", { value: id, label: `${id}: ${what}` });
function offersOf(found) {
  const all = new Map();
  for (const [kinds, kind] of Object.entries(KINDS)) for (const id of found[kinds]) all.set(id, [...(all.get(id) || []), kind]);
  return [...all].map(([id, kinds]) => option(id, kinds.map(wordOf).join(", ")));
}
async function namedSo(typed) {
  return (await desk.named()).filter((it) => isNamed(it.name, typed));
}
async function offers(typed) {
  const id = typed.toUpperCase(), begun = isId(id) ? offersOf(await desk.find(id)) : [];
  const known = new Set(begun.map((it) => it.value));
  return [...begun, ...(await namedSo(typed)).filter((it) => !known.has(it.def)).map((it) => option(it.def, it.name))];
}
let turns = 0;
async function offerBegun() {
  const typed = at("find").value.trim(), turn = ++turns;
  await new Promise((done) => { setTimeout(done, REST); });
  if (turn !== turns) return;
  if (!typed) { at("begun").replaceChildren(); return; }
  try {
    const found = await offers(typed);
    if (turn === turns) at("begun").replaceChildren(...found);
  } catch { at("begun").replaceChildren(); }
}
"##;

/// Its entity tag.
pub const RECORDS_TAG: &str = "\"e586208f49bc7322580030482873830d\"";
