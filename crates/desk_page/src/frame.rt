//! The frame of the page, and how it asks the desk, as it is sent. make/page.py writes this file of what is in page/.

/// Its bytes: JavaScript in ASCII.
pub const FRAME: &[u8] = br##""use strict";
function filled(element, attributes, children) {
  for (const [name, value] of Object.entries(attributes || {})) {
    if (value === false || value == null) continue;
    if (name.startsWith("on")) element.addEventListener(name.slice(2), value);
    else element.setAttribute(name, value === true ? "" : value);
  }
  element.append(...children.flat(9).filter((it) => it != null && it !== false).map((it) => (it instanceof Node ? it : String(it))));
  return element;
}
const h = (tag, attributes, ...children) => filled(document.createElement(tag), attributes, children);
const svg = (tag, attributes, ...children) => filled(document.createElementNS("http://www.w3.org/2000/svg", tag), attributes, children);
const at = (id) => document.getElementById(id);
const view = at("view");
const dialog = at("dialog");
const operator = at("operator");
const memory = new Map();
function kept(name, otherwise) {
  if (memory.has(name)) return memory.get(name);
  try {
    const text = localStorage.getItem("desk." + name);
    return text === null ? otherwise : JSON.parse(text);
  } catch { return otherwise; }
}
function keep(name, value) {
  try {
    localStorage.setItem("desk." + name, JSON.stringify(value));
    memory.delete(name);
  } catch { memory.set(name, value); }
}
const NAMES = { en: "English", de: "Deutsch" }, TABLES = { de: "/german.json" };
const wanted = (served) => [kept("language", null), served, ...navigator.languages.map((it) => it.split("-")[0])].find((it) => Object.hasOwn(NAMES, it)) || "en";
let spoken = "en";
const languages = Object.values(NAMES);
const spokenName = () => NAMES[spoken];
const numbersOf = () => (spoken === "en" ? navigator.language : spoken);
async function loadTexts(served) {
  const language = wanted(served), table = TABLES[language];
  if (!table) return;
  try {
    const reply = await fetch(table, { redirect: "error" });
    if (!reply.ok) return;
    sayAs(await reply.json());
  } catch { return; }
  spoken = language;
  document.documentElement.lang = language;
  for (const it of document.body.querySelectorAll("*")) sayElement(it);
  const [style] = document.styleSheets, number = t`page ${"\" counter(page) \""} of ${"\" counter(pages) \""}`;
  style?.insertRule(`@page { @bottom-right { content: "${number}"; } }`, style.cssRules.length);
}
function sayElement(element) {
  for (const name of ["aria-label", "placeholder"]) if (element.hasAttribute(name)) element.setAttribute(name, t(element.getAttribute(name)));
  for (const node of element.childNodes) {
    const text = node.nodeType === Node.TEXT_NODE ? node.data.trim() : "";
    if (text) node.data = node.data.replace(text, () => t(text));
  }
}
function chooseLanguage(name) {
  keep("language", Object.keys(NAMES).find((it) => NAMES[it] === name));
  location.reload();
}
const PLACE = "desk.typed", MOST_FORMS = 20;
function allTyped() {
  try { return new Map(JSON.parse(sessionStorage.getItem(PLACE))); } catch { return new Map(); }
}
function putTyped(all) {
  try { sessionStorage.setItem(PLACE, JSON.stringify([...all].slice(-MOST_FORMS))); } catch { /* Then it is lost with the page. */ }
}
const typedIn = (form) => allTyped().get(form) || null;
function keepTyped(form, values) {
  const all = allTyped();
  all.delete(form);
  putTyped(all.set(form, values));
}
function forgetTyped(form) {
  const all = allTyped();
  if (all.delete(form)) putTyped(all);
}
const operatorName = () => operator.value.trim();
const hasOperator = () => operatorName() !== "" && operator.checkValidity();
let ofLogin = null;
function nameByLogin(name) {
  ofLogin = name;
  operator.readOnly = name !== null;
  operator.title = name === null ? "" : t`The operator is who is logged in.`;
  if (name !== null) operator.value = name;
}
const IDLE = 30 * 60;
const isIdle = () => clock() - kept("active", clock()) > IDLE;
const isInDoubt = () => ofLogin === null && hasOperator() && isIdle();
const OFTEN = 10;
function seen() {
  if (!isIdle() && Math.abs(clock() - kept("active", 0)) >= OFTEN) keep("active", clock());
}
for (const it of ["keydown", "pointerdown"]) addEventListener(it, seen, true);
seen();
function nameOperator(name) {
  if (ofLogin !== null) return;
  operator.value = name.trim();
  keep("operator", operator.value);
  keep("active", clock());
}
const MOST_NAMES = 6;
const lastNames = () => kept("names", []);
const keepName = (name) => keep("names", [name, ...lastNames().filter((it) => it !== name)].slice(0, MOST_NAMES));
const CONSIDERED = 600;
function whoQuestion(named, other) {
  const notBefore = performance.now() + CONSIDERED, self = operatorName();
  const big = (label, press) => h("button", { type: "button", onclick: () => performance.now() > notBefore && press() }, label);
  const others = lastNames().filter((it) => it !== self).slice(0, MOST_NAMES - 1);
  return h("div", { class: "still", role: "group", "aria-label": t`Who is there` }, h("b", {}, t`Still ${self}?`), " ", t`Nobody was at this page for half an hour.`,
    h("div", {}, big(t`Yes, ${self}`, () => named(self)), others.map((it) => big(it, () => named(it))), big(t`Another name`, other)));
}
const keyOf = (it) => (it
  ? `${it.id}|${(it.closest("[data-row]") || { dataset: {} }).dataset.row || ""}|${it.getAttribute("aria-label") || it.textContent}` : "");
function focusAgain(key) {
  const seen = (places) => [...document.querySelectorAll(places)].filter((it) => it.offsetParent);
  const same = seen("a, button, input, select, [tabindex]").find((it) => keyOf(it) === key);
  const next = same || seen("#view .stack:last-child h2")[0] || seen("#view h2")[0] || view;
  next.focus({ preventScroll: Boolean(same) });
}
function focusRow(name) {
  const link = [...view.querySelectorAll("[data-row]")].find((it) => it.dataset.row === name)?.querySelector("a");
  (link || view).focus({ preventScroll: true });
}
let isPressed = false;
addEventListener("pointerdown", () => { isPressed = true; }, true);
for (const end of ["pointerup", "pointercancel"]) addEventListener(end, () => setTimeout(() => { isPressed = false; }), true);
async function released() { while (isPressed) await new Promise((then) => setTimeout(then, 30)); }
const isIn = (event, places) => event.target instanceof Element && event.target.closest(places);
addEventListener("click", (event) => {
  if (event.detail < 2 || !isIn(event, "button")) return;
  event.preventDefault();
  event.stopImmediatePropagation();
}, true);
addEventListener("keydown", (event) => {
  if (event.repeat && ["Enter", " "].includes(event.key) && isIn(event, "button, form") && !isIn(event, "textarea")) event.preventDefault();
}, true);
const isField = (it) => /^(INPUT|SELECT|TEXTAREA)$/.test(it.tagName);
const isWriting = () => isField(document.activeElement) && !dialog.contains(document.activeElement);
const ALONE = 2 * GAP;
let keys = NO_KEYS;
let cursor = null;
let lastScan = { code: null, time: 0 };
let shortcut = null;
let taking = Promise.resolve();
const stateOf = (it) => (it && it.matches("input:not([type=file]), select, textarea")
  ? { it, value: it.value, from: it.selectionStart, to: it.selectionEnd } : { it });
function restore({ it, value, from, to }) {
  if (value === undefined || it.value === value) return;
  it.value = value;
  if (from !== null && it.setSelectionRange) it.setSelectionRange(from, to);
  it.dispatchEvent(new Event("input", { bubbles: true }));
}
function endShortcut(isPerson) {
  if (!shortcut) return;
  clearTimeout(shortcut.timer);
  const { act } = shortcut;
  shortcut = null;
  if (isPerson) act();
}
function onceAlone(act) {
  if (keys.isFirst) shortcut = { act, timer: setTimeout(() => endShortcut(true), ALONE) };
}
function listenToScans(take) {
  addEventListener("keydown", (event) => {
    if (event.repeat || event.isComposing || event.ctrlKey || event.altKey || event.metaKey) { keys = NO_KEYS; return; }
    keys = pressed(keys, event.key, event.timeStamp);
    if (event.key !== "Shift") endShortcut(keys.isFirst || (event.key === "Enter" && !keys.code));
    if (keys.isFirst) cursor = stateOf(document.activeElement);
    if (event.key === " " && !keys.isFirst && keys.text && event.target instanceof Element && event.target.closest("button, a, input[type=checkbox]")) {
      event.preventDefault();
    }
    if (!keys.code) return;
    const { code } = keys, from = cursor, again = isAgain(lastScan, code, event.timeStamp);
    event.preventDefault();
    event.stopImmediatePropagation();
    restore(from);
    lastScan = { code, time: event.timeStamp };
    taking = taking.then(() => take(code, again, from.it)).catch(() => {});
  }, true);
}
let sound = null;
function tone() {
  try {
    sound ||= new AudioContext();
    const beep = sound.createOscillator(), loudness = sound.createGain();
    Object.assign(beep, { type: "square" });
    beep.frequency.value = 220;
    loudness.gain.value = 0.1;
    beep.connect(loudness).connect(sound.destination);
    sound.resume();
    beep.start();
    beep.stop(sound.currentTime + 0.25);
  } catch { /* There is no sound. */ }
}
let fading;
function notice(tone, text, ...buttons) {
  clearTimeout(fading);
  const told = text && h("div", { class: tone, role: tone === "bad" ? "alert" : null }, h("span", {}, text), buttons);
  at("notice").replaceChildren(...(told ? [told] : []));
  if (text && (tone === "good" || !buttons.length)) fading = setTimeout(() => notice(), tone === "bad" ? 15000 : buttons.length ? 30000 : 6000);
}
const card = (title, tools, ...body) => h("section", { class: "card" }, h("div", { class: "top" }, h("h2", { tabindex: -1 }, title), tools),
  ...body);
const listed = (it) => { it.classList.add("listed"); return it; };
const none = (...text) => h("p", { class: "none" }, ...text);
const pill = (text, tone) => h("span", { class: "pill " + (tone || "") }, text);
const button = (label, press, style, more) => h("button", { type: "button", class: style, onclick: press, ...more }, label);
const fact = (name, ...value) => h("div", {}, name, h("b", {}, ...value));
const facts = (...all) => h("div", { class: "body" }, h("div", { class: "facts" }, all));
const choice = (name, options, on, pick) => h("div", { class: "choice", role: "group", "aria-label": name },
  options.map((it) => button(t(it), () => pick(it), null, { "aria-pressed": String(it === on) })));
const hashOf = (place) => `#${placeFrom(location.hash, place)}`;
const link = (place, text, more) => h("a", { href: hashOf(place), ...more }, text);
const lotLink = (id, sub) => [link("quality/lot/" + id, id), sub ? "/" + sub : ""];
const batchLink = (id) => link("shift/" + id, id);
function go(...parts) { location.hash = hashOf(parts.filter(Boolean).join("/")); }
function table(heads, rows, without, isShort, sorts = {}) {
  if (!rows.length) return none(without);
  const names = heads.map((text) => t(text.replace("#", "")));
  for (const it of rows) [...it.children].forEach((cell, k) => { cell.dataset.label = names[k]; });
  const head = heads.map((text, k) => headCell(names[k], text.startsWith("#"), sorts[text]));
  return h("div", { class: "wide" }, h("table", { class: isShort ? null : "block" }, h("thead", {}, h("tr", {}, head)),
    h("tbody", {}, rows)));
}
function headCell(text, isOfNumbers, sort) {
  const kind = { class: isOfNumbers ? "num" : null, scope: "col" };
  if (!sort) return h("th", kind, text);
  const sign = { up: " \u25b4", down: " \u25be" }[sort.way] || "";
  return h("th", { ...kind, "aria-sort": { up: "ascending", down: "descending" }[sort.way] || "none" },
    button(text + sign, sort.press, "sort", { "aria-label": t`Sort by ${text}` }));
}
const whole = (content) => (content.flat(9).some((it) => it || it === 0) ? h("span", {}, content) : null);
function row(name, cells, place, isOn) {
  const follow = place && ((event) => { if (!event.target.closest("a, button, input")) go(place); });
  const it = h("tr", { "data-row": name, class: [place ? "pick" : "", isOn ? "on" : ""].join(" ").trim() || null, onclick: follow }, cells);
  const of = String(name).replace(/^(in|out) /, "").replace(".", " ");
  for (const one of it.querySelectorAll("button:not([aria-label])")) one.setAttribute("aria-label", `${one.textContent} ${of}`);
  return it;
}
const cell = (...content) => h("td", {}, whole(content));
const idCell = (...content) => h("td", { class: "id" }, whole(content));
const numberCell = (n, unit) => h("td", { class: "num" }, h("span", {}, grouped(n), unit ? " " + unit : ""));
const overCell = (line, booked) => h("td", { class: "num" }, h("span", { class: "over" }, booked, t`over ${grouped(excess(line))} ${line.unit}`));
const momentCell = (seconds) => h("td", { class: "when" }, moment(seconds));
const buttonsCell = (...buttons) => h("td", { class: "do" }, h("div", {}, buttons));
function firstSteps() {
  const step = (place, name, ...text) => h("li", {}, link(place, name), ": ", ...text);
  return card(t`This desk is new`, null, h("div", { class: "body" }, h("ol", {},
    step("warehouse", t`Warehouse`, t`make a class, such as RAW, and in it the materials, each with the unit in which it is counted.`),
    step("planner", t`Planner`, t`write a recipe and approve it. Then take orders in.`),
    step("warehouse", t`Warehouse`, t`receive lots of what goes in.`),
    step("planner", t`Planner`, t`release an order, which makes its batch.`),
    step("shift", t`Shift`, t`start the batch, book what goes in and comes out, do its phases, and close it.`),
    step("quality", t`Quality`, t`see where goods came from and went; hold and recall them.`))));
}
class Refusal extends Error {
  constructor(answer) { super(plainly(answer)); this.answer = answer; }
}
const whyNot = (error) => (error instanceof Refusal ? error.message : t`The desk doesn't answer.`);
const SECONDS = 40;
let tail = Promise.resolve();
function request(path, options) {
  const next = tail.then(async () => {
    const first = clock();
    const reply = await fetch(path, { cache: "no-store", redirect: "error", signal: AbortSignal.timeout(SECONDS * 1000), ...options });
    const told = Date.parse(reply.headers.get("Date") || "") / 1000;
    if (!Number.isNaN(told)) desk.offset = clockOffset(told, first, clock());
    const text = await reply.text();
    const isJson = (reply.headers.get("Content-Type") || "").startsWith("application/json");
    return { status: reply.status, isJson, body: isJson ? JSON.parse(text) : text };
  });
  tail = next.catch(() => {});
  return next;
}
async function askedAnew(path, isText) {
  const answer = await request(path);
  if (answer.status === 200 && answer.isJson !== Boolean(isText)) return answer.body;
  if (!answer.isJson) throw new Error(`an answer of status ${answer.status} that isn't the desk's`);
  throw new Refusal(answer);
}
const answers = new Map();
async function asked(path, isText) {
  if (!answers.has(path)) answers.set(path, await askedAnew(path, isText));
  return answers.get(path);
}
async function found(path) {
  try { return await asked(path); } catch (error) { if (error instanceof Refusal && error.answer.status === 404) return null; throw error; }
}
const lasting = new Map(), MOST_LASTING = 2000;
async function askedOnce(name, ask, of = null) {
  const known = lasting.get(name);
  if (known && known.of === of) return known.value;
  const value = await ask();
  if (lasting.size >= MOST_LASTING) lasting.clear();
  lasting.set(name, { of, value });
  return value;
}
async function list(path, wanted, cursor) {
  const all = [];
  let behind = cursor ? "/" + cursor : "";
  do {
    const { items, last } = readPage(path, await asked(`/v1/lists/${path}${behind}`));
    all.push(...items);
    all.more = last !== null;
    behind = "/" + last;
  } while (all.more && all.length < wanted);
  return all;
}
const wantedItems = new Map();
const want = (name) => wantedItems.get(name) || PAGE;
const desk = {
  seq: null,
  moment: 0,
  name: undefined,
  async look() {
    const { seq } = await askedAnew("/v1/desk");
    if (seq === this.seq) return false;
    answers.clear();
    await this.lookAtMoment();
    if (!this.name || seq < this.seq) await this.lookAtName();
    this.seq = seq;
    return true;
  },
  async lookAtName() {
    const [first] = (await askedAnew("/v1/lists/commands")).commands, before = this.name;
    this.name = first ? first.ref : null;
    if (this.name !== before) lasting.clear();
    dispatchEvent(new Event("desk-named"));
  },
  async lookAtMoment() { this.moment = (await askedAnew("/v1/moment")).at; },
  offset: 0,
  time() { return clock() + this.offset; },
  today() { return day(new Date(this.time() * 1000)); },
  now() { return Math.max(this.time(), this.moment); },
  find: (id) => asked("/v1/find/" + id),
  order: (id) => asked("/v1/orders/" + id),
  lot: (id) => asked("/v1/lots/" + id),
  foundLot: (id) => found("/v1/lots/" + id),
  foundBatch: (id) => found("/v1/batches/" + id),
  foundOrder: (id) => found("/v1/orders/" + id),
  async presented() {
    try { return await askedAnew("/v1/health"); } catch { return { name: null, language: null }; }
  },
  loggedIn: async () => (await found("/v1/operator"))?.operator ?? null,
  definition: (id) => found("/v1/definitions/" + id),
  recipe: (id, version) => asked(`/v1/recipes/${id}/${version}`),
  recipeOnce: (id, version) => askedOnce(`recipe ${id} ${version}`, () => desk.recipe(id, version)),
  foundRecipe: (id, version) => found(`/v1/recipes/${id}/${version}`),
  recall: (id) => found("/v1/recalls/" + id),
  async batch(id) {
    const batch = await asked("/v1/batches/" + id), lines = await this.batchLines(id);
    return { ...batch, lines: lines.map(withPath) };
  },
  async batchLines(id) { return (await asked(`/v1/batches/${id}/lines`)).lines; },
  async linesNow(id) { return (await askedAnew(`/v1/batches/${id}/lines`)).lines; },
  finishedBatch: (order) => askedOnce(`finished ${order}`, async () => {
    const { batch } = await asked("/v1/orders/" + order);
    return { batch, lines: await desk.batchLines(batch) };
  }),
  async history(id) {
    const all = [];
    for (let page = await asked("/v1/lists/history/" + id); ; page = await asked(`/v1/lists/history/${id}/${page.last}`)) {
      all.push(...page.commands);
      if (!page.more) return all;
    }
  },
  ledger: (lot, stock, wanted) => askedOnce(`ledger ${lot}`, () => list("movements/" + lot, wanted), stock),
  async record(id) { return readRecord(await asked(`/v1/batches/${id}/record`, true)); },
  async stands(kind, id) { return (await asked(`/v1/${kind}/${id}/stands`)).lots; },
  async balance(kind, id) { return (await asked(`/v1/${kind}/${id}/balance`)).lots; },
  async needs(order) { return (await asked(`/v1/orders/${order}/needs`)).needs; },
  forward: (kind, id) => asked(`/v1/${kind}/${id}/forward_edges`),
  back: (kind, id) => asked(`/v1/${kind}/${id}/back_edges`),
  async lotNode(lot) { return (await this.back("lots", lot)).nodes.find((it) => it.lot === lot); },
  orders: (state, wanted) => list("orders_by_due/" + state, wanted),
  ordersSince: (state, since, wanted) => list("orders_by_due/" + state, wanted, `${since}.A`),
  batches: (wanted) => list("batches", wanted),
  closedBatches: (wanted) => list("closed_batches", wanted),
  holds: (lot, wanted) => list("holds/" + lot, wanted),
  async lastCommands(count) {
    const behind = this.seq > count ? "/" + (this.seq - count) : "";
    return [...(await asked("/v1/lists/commands" + behind)).commands].reverse();
  },
  commands: (wanted) => list("commands", wanted),
  allHolds: (wanted) => list("all_holds", wanted),
  recalls: (wanted) => list("recalls", wanted),
  liftedRecalls: (wanted) => list("lifted_recalls", wanted),
  recipes: (state, wanted) => list("recipes/" + state, wanted),
  movements: (lot, wanted) => list("movements/" + lot, wanted),
  stock: (def, wanted) => list("stock/" + def, wanted),
  stocks: (group, wanted) => list("stocks/" + group, wanted),
  async stockOf(def) {
    const known = await this.definition(def), isMeant = (it) => it.def === def;
    if (!known) return null;
    const first = (await this.stocks(known.class, PAGE)).find(isMeant);
    return first || (await list(`stocks/${known.class}`, 1, idBefore(def))).find(isMeant) || null;
  },
  async named() {
    const all = [];
    for (const { class: id } of await list("classes", PAGE)) all.push(...await list("definitions/" + id, PAGE));
    return all;
  },
  async materials() {
    const all = [];
    for (const { class: id } of await list("classes", Infinity)) all.push(...(await this.stocks(id, Infinity)).map((it) => ({ class: id, ...it })));
    return all;
  },
  async classes() {
    const classes = await list("classes", want("classes"));
    const known = [];
    for (const it of classes) {
      known.push({ id: it.class, name: it.name, stocks: await this.stocks(it.class, want("stocks " + it.class)) });
    }
    known.more = classes.more;
    return known;
  },
};
function more(items, name, what) {
  if (!items.more) return null;
  const ask = (count) => button(t`${grouped(count)} more`, () => { wantedItems.set(name, want(name) + count); show(); });
  return h("div", { class: "more" }, what ? what(grouped(items.length)) : t`The first ${grouped(items.length)} are shown, and there are more.`, ask(PAGE),
    ask(10 * PAGE));
}
const VIEWS = {};
function place() {
  const { name, words } = readAddress(location.hash);
  if (name === "warehouse" && words[0] === "place") return [name, words.slice(0, 2).map(decoded)];
  const kinds = ["lot", "batch", "recall"];
  const rest = words.map((it) => (kinds.includes(it) ? it : it.toUpperCase())).filter((it) => kinds.includes(it) || isId(it));
  return Object.hasOwn(VIEWS, name) ? [name, rest] : ["today", []];
}
function filterOf(name, options) {
  const it = readAddress(location.hash).filters.get(name);
  return options.includes(it) ? it : options[0];
}
const filtered = (name, options, value) => `#${withFilter(location.hash || `#${place()[0]}`, name, value === options[0] ? null : value)}`;
const textOf = (name) => readAddress(location.hash).filters.get(name) || "";
function setText(name, value, isTyped) {
  const address = `#${withFilter(location.hash || `#${place()[0]}`, name, value || null)}`;
  if (!isTyped) location.hash = address;
  else { history.replaceState(history.state, "", address); show(); }
}
function setFilter(name, options, value) { location.hash = filtered(name, options, value); }
const filterChoice = (label, name, options) => choice(label, options, filterOf(name, options), (it) => setFilter(name, options, it));
function dropFilter(name) { history.replaceState(history.state, "", filtered(name, [null], null)); }
const isNarrow = () => innerWidth < 980;
let wasNarrow = isNarrow();
addEventListener("resize", () => { if (wasNarrow !== isNarrow()) show(); wasNarrow = isNarrow(); });
function tellStatus(tone, ...told) {
  at("stand").className = tone;
  at("stand").replaceChildren(...told);
}
const SLOW = 700;
let showing = 0;
async function show() {
  const mine = ++showing, [name, rest] = place();
  markRole(name);
  const slow = setTimeout(() => tellStatus("", t`reading\u2026`), SLOW);
  try {
    await desk.look();
    const [layout, ...parts] = await VIEWS[name](rest);
    await released();
    if (mine !== showing) return;
    draw(layout, parts);
    view.dataset.ready = `${name} ${desk.seq}`;
    void readRest(mine);
  } catch (error) {
    if (mine === showing) drawFailure(name, error);
  } finally { clearTimeout(slow); }
}
const unread = new Map(), lastRead = new Map();
function later(name, read) {
  const it = h("div", { class: "later" }, none(t`reading\u2026`));
  unread.set(it, { name, read });
  return it;
}
async function readRest(mine) {
  const all = [...unread].filter(([it]) => it.isConnected), isShown = () => mine === showing;
  unread.clear();
  delete view.dataset.whole;
  for (const [element, { name }] of all) element.replaceChildren(...(lastRead.get(name) || element.childNodes));
  for (const [element, { name, read }] of all) {
    const nodes = isShown() && (await read(isShown).catch((error) => [none(whyNot(error))])).flat(9).filter(Boolean);
    if (!isShown()) return;
    const key = element.contains(document.activeElement) ? keyOf(document.activeElement) : null;
    lastRead.set(name, nodes);
    element.replaceChildren(...nodes);
    if (key) focusAgain(key);
  }
  view.dataset.whole = view.dataset.ready;
}
let drawn = "", drawnOn = "", drawnAt = 0;
const isDayOver = () => drawnOn !== desk.today();
const isDrawnBefore = (seconds) => drawnAt > 0 && desk.time() - drawnAt >= seconds;
const tops = new Map();
history.scrollRestoration = "manual";
function draw(layout, parts) {
  const now = document.activeElement, key = view.contains(now) && now !== view ? keyOf(now) : null, before = readAddress(drawn).words.at(-1);
  const isAnother = !isSamePlace(drawn, location.hash), isBack = isAnother && (history.state !== null || isAbove(location.hash, drawn));
  if (isAnother) tops.set(drawn, scrollY);
  view.className = layout;
  view.replaceChildren(...parts.filter(Boolean));
  drawBack();
  doDrawn();
  if (isAnother) scrollTo(0, (isBack && tops.get(location.hash)) || 0);
  if (isBack && (key || now === at("back"))) focusRow(before);
  else if (key) focusAgain(key);
  drawn = location.hash;
  drawnOn = desk.today();
  drawnAt = desk.time();
  if (history.state === null) history.replaceState({ isDrawn: true }, "");
  drawStatus();
}
let toDo = [];
function onceDrawn(act) { toDo.push(act); }
function doDrawn() {
  const all = toDo;
  toDo = [];
  for (const act of all) act();
}
const LISTS_OF = { planner: "Back to the orders", shift: "Back to the batches", warehouse: "Back to the materials", quality: "Back to recalls and holds" };
function drawBack() {
  const [name, rest] = place(), isInside = name === "warehouse" && rest.length > 1, isList = !rest.length || (rest.length === 1 && rest[0] === "place");
  view.classList.toggle("thing", !isList);
  at("back").hidden = isList;
  at("back").href = `#${placeFrom(location.hash, isInside ? `warehouse/${rest[0]}` : name)}`;
  const text = !isInside ? t(LISTS_OF[name] || "") : rest[0] === "place" ? t`Back to the places` : t`Back to the lots of ${rest[0]}`;
  at("back").textContent = `\u2039 ${text}`;
}
function drawFailure(name, error) {
  if (error instanceof Refusal) return draw("", [card(t`Not here`, null, none(error.message, " ", link(name, t`Back`)))]);
  const why = t`The desk doesn't answer. It may be stopped, or the way to it is broken.`, again = button(t`Try again`, () => { notice(); show(); });
  if (drawn !== location.hash) draw("", [card(t`No answer`, null, none(why), h("div", { class: "body" }, again))]);
  else notice("bad", why, again);
  tellStatus("bad", t`no answer`);
}
const clockIsOff = (length) => (desk.offset < 0 ? t`This device's clock is ${length} ahead of that of the desk's machine.`
  : t`This device's clock is ${length} behind that of the desk's machine.`);
function drawStatus() {
  const isAhead = desk.moment > desk.time() + 60, isOff = Math.abs(desk.offset) > 60;
  at("clock").hidden = !isOff;
  at("clock").textContent = isOff ? `${clockIsOff(lengthOfTime(Math.abs(desk.offset)))} ${t`Bookings take the machine's time.`}` : "";
  const count = counted(desk.seq, "booking", "bookings"), last = moment(desk.moment);
  tellStatus(isAhead ? "warn" : "", desk.seq === 0 ? t`no booking yet` : isAhead ? t`${count}, ahead: ${last}` : t`${count}, last ${last}`);
  at("stand").title = isAhead ? t`The desk's last booking is later than its machine's clock. Bookings take the desk's moment.` : "";
}
let deskName = null;
function present(name) {
  deskName = name;
  if (name !== null) at("desk").textContent = name;
}
const TITLES = { today: "today^view", planner: "planner^view", shift: "shift^view", warehouse: "warehouse^view", quality: "quality^view", board: "board^view" };
function markRole(name) {
  for (const it of document.querySelectorAll("header nav a")) {
    if (it.hash === "#" + name) it.setAttribute("aria-current", "page");
    else it.removeAttribute("aria-current");
  }
  document.title = `${deskName ?? t`Desk`}: ${t(TITLES[name])}`;
}
const WAYS = ["up", "down"];
function setOrder(value, way) {
  const other = withFilter(`#${withFilter(location.hash || `#${place()[0]}`, "sort", value)}`, "way", way === "up" ? null : way);
  location.hash = `#${other}`;
}
function listOrder(heads) {
  const names = Object.keys(heads), by = filterOf("sort", names), way = filterOf("way", WAYS), set = (it, to) => setOrder(it === names[0] ? null : it, to);
  const option = (it, to) => h("option", { value: `${it}.${to}`, selected: it === by && to === way }, `${t(heads[it].replace("#", ""))}, ${t(to)}`);
  return {
    by, isBack: way === "down", isAsItComes: by === names[0] && way === "up",
    heads: Object.fromEntries(names.map((it) => [heads[it], { way: it === by ? way : null, press: () => set(it, it === by && way === "up" ? "down" : "up") }])),
    field: (label) => h("select", { class: "phone", "aria-label": label, onchange: (event) => set(...event.target.value.split(".")) },
      names.flatMap((it) => WAYS.map((to) => option(it, to)))),
  };
}
const LINK_LASTS = 60_000;
function save(name, text) {
  const url = URL.createObjectURL(new Blob([text], { type: "text/csv" }));
  h("a", { href: url, download: name }).click();
  setTimeout(() => URL.revokeObjectURL(url), LINK_LASTS);
}
async function saveList(list, name, read) {
  const isNew = await desk.look(), rows = rowsOf(await read(), COLUMNS[list]), file = `${name}-${desk.today()}.csv`;
  save(file, csvOf(rows, separatorOf(numbersOf())));
  if (isNew) await show();
  notice("good", t`${counted(rows.length - 1, "row", "rows")} saved as ${file}.`);
}
const csvButton = (list, name, read) => button(t`CSV`, async () => {
  notice("", t`Reading the list\u2026`);
  try { await saveList(list, name, read); } catch (error) {
    notice("bad", error instanceof Refusal ? error.message : t`The desk doesn't answer. Nothing was saved.`);
  }
}, null, { "aria-label": t`CSV of ${name}`, title: t`Save the list for a spreadsheet` });
"##;

/// Its entity tag.
pub const FRAME_TAG: &str = "\"ae39c1d2323db9e46ec087a1a791c182\"";
