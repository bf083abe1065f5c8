//! The forms of the page, and what it prints, as it is sent. make/page.py writes this file of what is in page/.

/// Its bytes: JavaScript in ASCII.
pub const FORMS: &[u8] = br##""use strict";
const partsOfLot = (lot) => lot.sublots.filter((it) => it.stock > 0).map((it) => ({ lot: lot.lot, sub: it.no, stock: it.stock, place: it.place,
  at: lot.at, barred: lot.held ? t`on hold` : lot.recalled ? t`recalled` : "" }));
async function partsToOffer(def) {
  let lots, parts, wanted = 0;
  do {
    lots = await desk.stock(def, wanted += PAGE);
    parts = lots.flatMap(partsOfLot);
  } while (lots.more && parts.every((it) => it.barred));
  return Object.assign(parts.sort((a, b) => Boolean(a.barred) - Boolean(b.barred)), { more: lots.more });
}
async function wholeLot(id) {
  const lot = id && await desk.foundLot(id);
  if (!lot) return null;
  const { recalled } = await desk.lotNode(id), [first] = await desk.movements(id, 1);
  return { ...lot, recalled, at: first ? first.at : null };
}
async function lotNow(id) {
  await desk.look();
  return wholeLot(id);
}
const nothingIn = (id, sub) => (sub === null ? t`There is nothing in lot ${id}.` : t`There is nothing in part ${sub} of lot ${id}.`);
async function partsNamed(code, { def, mayBeBarred }) {
  const { lot: id, sub } = lotOf(code), lot = await lotNow(id);
  if (!lot) return t`There is no lot ${id || code}.`;
  if (lot.def !== def) return t`Lot ${id} is ${lot.def}, and not ${def}.`;
  const parts = partsOfLot(lot), meant = sub === null ? parts[0] : parts.find((it) => it.sub === sub);
  if (!meant) return nothingIn(id, sub);
  if (meant.barred && !mayBeBarred) return t`Lot ${id} is ${meant.barred}.`;
  return [meant, ...parts.filter((it) => it !== meant)];
}
const ATTRIBUTES = { "data-id": true, maxlength: 28, autocapitalize: "characters", autocomplete: "off", spellcheck: "false" };
class LotChoice {
  constructor(field, told) {
    Object.assign(this, { field, told, part: field.part || null, seen: "", looking: null, known: new Map() });
    this.input = h("input", { name: field.name, ...ATTRIBUTES, placeholder: t`such as F-1, or F-1/2 for its part 2`, required: !field.part && !field.isOptional, oninput: () => this.typed(), onchange: () => this.look() });
    this.list = h("select", { name: `${field.name}-list`, onchange: () => this.choose(this.known.get(this.list.value) || null, true) },
      h("option", { value: "" }, t`none of these`));
    this.said = h("p", { class: "said", role: "status" });
    this.wrong = h("p", { class: "wrong", role: "alert" });
    this.offer(field.parts || []);
    this.element = h("div", { class: "lot" }, h("label", {}, field.label, this.input),
      h("label", {}, field.parts?.more ? t`Or one of those in stock, the oldest first; younger ones are scanned or typed` : t`Or one of those in stock, the oldest first`,
        this.list), this.said, this.wrong);
    this.draw();
  }
  isSettled() {
    const text = this.input.value.trim();
    return !this.looking && text.toUpperCase() === this.seen && (this.part !== null || (text === "" && Boolean(this.field.isOptional)));
  }
  offer(parts) {
    for (const it of parts.filter((part) => !this.known.has(keyOfPart(part)))) {
      this.known.set(keyOfPart(it), it);
      this.list.append(h("option", { value: keyOfPart(it), disabled: Boolean(it.barred) && !this.field.mayBeBarred }, partInWords(it, this.field.unit)));
    }
  }
  draw() {
    this.list.parentNode.hidden = this.known.size < (this.field.part ? 2 : 1);
    this.said.textContent = this.part ? partInWords(this.part, this.field.unit) : "";
    this.list.value = this.part ? keyOfPart(this.part) : "";
    this.input.required = !this.part && !this.field.isOptional;
  }
  choose(part, isOfList) {
    this.part = part;
    this.wrong.textContent = "";
    if (isOfList) this.input.value = this.seen = part ? keyOfPart(part) : "";
    this.draw();
    this.next = part && this.told(part);
  }
  typed() {
    this.wrong.textContent = "";
    if (this.input.value.trim().toUpperCase() !== this.seen) { this.part = null; this.draw(); }
  }
  async look(code = this.input.value) {
    const text = code.trim().toUpperCase();
    if (text === this.seen && (this.looking || this.part)) return this.looking || true;
    Object.assign(this, { seen: text, part: null });
    this.input.value = text;
    this.wrong.textContent = "";
    this.draw();
    const mine = this.looking = text ? this.found(text) : Promise.resolve(false);
    try { return await mine; } finally { if (this.looking === mine) this.looking = null; }
  }
  async found(text) {
    let parts;
    try { parts = await partsNamed(text, this.field); } catch (error) { parts = whyNot(error); }
    if (text !== this.seen) return false;
    if (typeof parts === "string") return this.refuse(parts);
    this.offer(parts);
    this.looking = null;
    this.choose(parts[0]);
    return true;
  }
  refuse(why) {
    this.wrong.textContent = why;
    this.input.select();
    tone();
    return false;
  }
}
const FIELDS = {
  id: { "data-id": true, maxlength: 24, pattern: "[A-Za-z][A-Za-z0-9\\-]*", title: ID_RULE, autocapitalize: "characters",
    autocomplete: "off", spellcheck: "false", required: true },
  text: { maxlength: 60, pattern: "[ -~]*", title: "at most 60 letters of plain ASCII", autocomplete: "off" },
  amount: { maxlength: 16, pattern: "0*[1-9][0-9]{0,14}|10{15}", title: "a whole number from 1", inputmode: "numeric", autocomplete: "off",
    required: true },
  date: { type: "date", min: "2000-01-01", max: "2099-12-31", required: true },
  lines: { rows: 8, required: true, spellcheck: "false" },
};
const say = (text) => ({ kind: "say", label: text });
const ownField = (element) => ({ kind: "own", element });
const idField = (name, label, value) => ({ name, kind: "id", label, value });
const newLotField = (name, label, value) => ({ name, kind: "id", label, value, isNewLot: true });
const lotField = (more) => ({ name: "from", kind: "lot", label: t`Scan or type the lot`, ...more });
const textField = (name, label, more) => ({ name, kind: "text", label, more });
const amountField = (unit, value) => ({ name: "amount", kind: "amount", label: unit ? t`Amount, ${unit}` : t`Amount`, value });
const placeField = (label) => textField("place", label || t`Place`);
const noteField = (label) => textField("note", label || t`Note, if any`);
const whyField = () => textField("note", t`Why`, { required: true, pattern: "[ -~]*[!-~][ -~]*" });
const selectField = (name, label, options, value, change) => ({ name, kind: "select", label, options, value, change });
const halfField = (name, kind, label, more) => ({ name, kind, label, isHalf: true, ...more });
const operatorField = () => textField("operator", t`Operator: your name, which this browser keeps`, { required: true });
const noted = (fields, note) => (note ? { ...fields, note } : fields);
function input(field) {
  const value = field.value === undefined ? "" : String(field.value);
  if (field.kind === "select") {
    const options = field.options.map((it) => h("option", { value: it.value, disabled: it.isOff, selected: String(it.value) === value }, it.label));
    return h("select", { name: field.name, required: true }, options);
  }
  const { title, ...rest } = FIELDS[field.kind];
  const it = h(field.kind === "lines" ? "textarea" : "input", { name: field.name, ...rest, title: title && t(title), ...field.more });
  it.value = value;
  return it;
}
async function foreseen(content, by, signal) {
  const body = JSON.stringify({ at: desk.now(), by, ...content });
  const reply = await fetch("/v1/check", { method: "POST", body, headers: { "Content-Type": "application/json" }, cache: "no-store", signal });
  const { accepted, name, item, reason } = reply.status === 200 ? await reply.json() : { accepted: true };
  if (accepted || name === "MomentBack") return "";
  const list = content.parts || content.lines || content.orders || [];
  const which = item && list.length > 1 ? t`As it stands, this would be refused, for number ${item} of the list.` : t`As it stands, this would be refused.`;
  return `${which} ${reason ? t`It can't be read: ${reason}.` : refusalOf(name)} (${name})`;
}
const PAUSE = 400;
const CONSIDER = 600;
class Form {
  constructor(title, fields, label, take, { isGrave, contentOf, doubt, booksNothing } = {}) {
    Object.assign(this, { label, take, contentOf, doubt, style: isGrave ? "main bad" : "main", again: null, confirmed: null, asking: new AbortController() });
    this.needsName = !booksNothing;
    this.fields = hasOperator() || booksNothing ? fields : [...fields, operatorField()];
    this.inputs = {};
    this.wrong = h("p", { class: "wrong", role: "alert" });
    this.told = h("p", { class: "foreseen", role: "status" });
    this.ok = h("button", { class: this.style }, label);
    this.as = h("span", { class: "as" });
    this.who = h("div", { hidden: true });
    this.drawAs();
    const part = fields.find((it) => it.part)?.part;
    this.name = booksNothing ? null : [desk.name || "", title, part ? keyOfPart(part) : ""].join("|");
    const rows = this.fields.map((it) => this.row(it)), away = button(t`Cancel`, () => this.ok.disabled || dialog.close());
    const events = { onsubmit: (event) => this.submit(event), oninput: () => this.changed(), onkeydown: (event) => this.pressed(event) };
    this.element = h("form", { method: "dialog", ...events }, h("h2", { id: "title" }, title), this.who, this.putBack(), rows, this.told, this.wrong,
      h("div", { class: "end" }, away, this.as, this.ok));
    if (this.isInDoubt()) this.askWho(() => (fields.length ? this.first().focus() : this.element.requestSubmit()));
  }
  keep() {
    if (this.name === null || this.ok.disabled || !this.isOpen()) return;
    const now = Object.entries(this.inputs).filter(([name, it]) => name !== "operator" && it.value !== this.begun[name]);
    keepTyped(this.name, Object.fromEntries(now.map(([name, it]) => [name, it.value])));
  }
  leave() { if (this.name !== null) forgetTyped(this.name); }
  putBack() {
    this.begun = Object.fromEntries(Object.entries(this.inputs).map(([name, it]) => [name, it.value]));
    const kept = Object.entries((this.name !== null && typedIn(this.name)) || {}).filter(([name]) => this.inputs[name]);
    for (const [name, value] of kept) this.inputs[name].value = value;
    if (this.lot && kept.some(([name]) => this.inputs[name] === this.lot.input)) this.lot.look();
    return kept.length > 0 && h("p", { class: "soft", role: "status" }, t`What was typed before the page was loaded anew is put back.`);
  }
  isInDoubt() { return this.needsName && !this.inputs.operator && isInDoubt(); }
  drawAs() { this.as.textContent = this.needsName && !this.inputs.operator && hasOperator() ? t`as ${operatorName()}` : ""; }
  askWho(then) {
    const named = (name) => { nameOperator(name); this.who.hidden = true; this.drawAs(); then(); };
    this.who.replaceChildren(whoQuestion(named, () => this.askName()));
    this.who.hidden = false;
  }
  askName() {
    const field = operatorField();
    this.fields = [...this.fields, field];
    this.who.replaceWith(this.row(field));
    this.drawAs();
    this.inputs.operator.focus();
  }
  row(field) {
    if (field.kind === "say") return h("p", { class: "soft" }, field.label);
    if (field.kind === "own") return field.element;
    if (field.kind === "lot") return this.lotRow(field);
    const it = (this.inputs[field.name] = input(field));
    if (field.isNewLot) it.addEventListener("change", () => this.putNewLot(field, it.value));
    const hint = h("span", { class: "small", role: "status" }, field.hint);
    if (field.kind === "text") it.addEventListener("change", () => this.offerPlain(it, hint));
    if (field.isNewLot) this.hint = hint;
    return h("label", { class: field.isHalf ? "half" : null }, field.label, it, (field.hint || field.isNewLot || field.kind === "text") && hint);
  }
  lotRow(field) {
    this.lot = new LotChoice(field, (part) => { this.changed(); return field.change && field.change(this.inputs, part); });
    this.inputs[field.name] = this.lot.input;
    return this.lot.element;
  }
  offerPlain(it, hint) {
    const plain = it.checkValidity() ? null : plainText(it.value);
    const take = () => { it.value = plain; hint.replaceChildren(); this.changed(); };
    hint.replaceChildren(...(plain === null || plain === it.value ? [] : [t`The desk has plain letters alone.`, " ", button(t`Take \u201c${plain}\u201d`, take)]));
  }
  isOpen() { return dialog.open && dialog.firstChild === this.element; }
  values() {
    const value = ({ name, kind }) => (kind === "amount" ? Number(this.inputs[name].value) : kind === "id" ? this.inputs[name].value.toUpperCase()
      : kind === "lot" ? this.lot.part : this.inputs[name].value);
    return Object.fromEntries(this.fields.filter((it) => it.name).map((it) => [it.name, value(it)]));
  }
  first() {
    if (!this.who.hidden) return this.who.querySelector("button");
    const wanted = Object.values(this.inputs).find((it) => !it.value && it.required && it.name !== "note");
    return this.lot ? this.lot.input : wanted || this.inputs.amount || this.ok;
  }
  forget() { clearTimeout(this.pause); this.asking.abort(); this.told.textContent = ""; }
  changed() {
    this.keep();
    this.forget();
    this.doubted(null);
    if (this.contentOf) this.pause = setTimeout(() => this.ask(), PAUSE);
  }
  async ask() {
    const { operator: name, ...values } = this.values(), { signal } = (this.asking = new AbortController());
    const isWhole = this.isOpen() && this.element.checkValidity() && (!this.lot || this.lot.isSettled());
    const content = isWhole ? this.contentOf(values) : null;
    const text = content && await foreseen(content, (name || operatorName()).trim(), signal).catch(() => "");
    if (text && !signal.aborted) this.told.textContent = text;
  }
  places() { return [...this.element.querySelectorAll("input, select, textarea")].filter((it) => it !== this.lot?.list); }
  async pressed(event) {
    if (event.key !== "Enter" || !event.target.matches("input, select")) return;
    if (this.lot && event.target === this.lot.list) return event.preventDefault();
    const isOfLot = this.lot && event.target === this.lot.input && event.target.value.trim() !== "";
    if (!isOfLot && event.target === this.places().at(-1)) return;
    event.preventDefault();
    if (isOfLot && !(await this.lot.look())) return;
    this.goOn(event.target);
  }
  goOn(from) {
    if (!this.isOpen()) return;
    const places = this.places(), next = (from === this.lot?.input && this.lot.next) || places[places.indexOf(from) + 1] || this.ok;
    next.focus();
    if (next.select) next.select();
  }
  doubted(text) {
    if (this.confirmed === null && text === null) return;
    this.confirmed = text;
    this.wrong.textContent = text || "";
    this.ok.className = text ? "main bad" : this.style;
    this.ok.textContent = text ? t`${this.label} all the same` : this.label;
    this.notBefore = performance.now() + CONSIDER;
  }
  async hasDoubt(values) {
    const text = [this.again, this.doubt && await this.doubt(values)].filter(Boolean).join(" ") || null;
    if (text === null || text === this.confirmed) return false;
    this.doubted(text);
    return true;
  }
  async submit(event) {
    event.preventDefault();
    if (this.ok.disabled || (this.confirmed && performance.now() < this.notBefore)) return;
    if (this.lot && !this.lot.isSettled()) return this.lot.look();
    if (this.isInDoubt()) {
      this.askWho(() => this.element.requestSubmit(this.ok));
      return this.who.querySelector("button").focus();
    }
    this.forget();
    const { operator: name, ...values } = this.values();
    if (name !== undefined) nameOperator(name);
    this.ok.disabled = true;
    const isDoubtful = await this.hasDoubt(values), isOff = isDoubtful || !this.isOpen();
    if (!isOff) { this.wrong.textContent = ""; this.leave(); }
    const what = isOff ? null : await this.take(values);
    this.ok.disabled = false;
    if (what && what !== LOST) this.keep();
    if (what && what !== LOST) this.wrong.textContent = what;
    if (isDoubtful || (what && what !== LOST)) this.ok.focus();
    else if (!isOff && this.isOpen()) dialog.close();
  }
  async scanned(code, isAgain, place) {
    if (this.ok.disabled) return tone();
    this.doubted(null);
    this.again = isAgain ? t`${code} was scanned twice within two seconds.` : null;
    const field = this.fields.find((it) => it.isNewLot), isForNew = field && place === this.inputs[field.name];
    if (this.lot && !(isForNew && !(await lotNow(lotOf(code).lot)))) {
      if (await this.lot.look(code)) this.goOn(this.lot.input);
    } else if (field) {
      this.inputs[field.name].value = code.toUpperCase();
      this.putNewLot(field, code);
      this.goOn(this.inputs[field.name]);
    } else return this.refuse(t`This form takes no scan. Nothing was booked.`);
    if (this.again && !this.wrong.textContent) this.wrong.textContent = `${this.again} ${t`It is booked once you say so.`}`;
  }
  refuse(why) { this.wrong.textContent = why; tone(); }
  putNewLot(field, code) {
    const text = code.trim(), lot = isId(text.toUpperCase()) || !text ? null : lotOfSupplier(text), { note } = this.inputs;
    if (text === this.made) return;
    this.made = lot;
    this.hint.textContent = lot ? t`${text} is no id of the desk: the lot is ${lot}, and the code goes into the note.` : "";
    if (!lot) return;
    this.inputs[field.name].value = lot;
    if (note) note.value = withCode(note.value, text);
    this.changed();
  }
}
let opened = null;
function form(title, fields, label, take, more) {
  if (opened) opened.leave();
  opened = new Form(title, fields, label, take, more);
  openDialog(opened.element, opened.first());
}
const openForm = () => (opened && opened.isOpen() ? opened : null);
dialog.addEventListener("close", () => {
  if (!opened || opened.isOpen()) return;
  opened.leave();
  opened = null;
});
let focusBehind = null;
function openDialog(content, first) {
  focusBehind = keyOf(document.activeElement);
  dialog.replaceChildren(content);
  if (!dialog.open) dialog.showModal();
  dialog.scrollTop = 0;
  first.focus({ preventScroll: first.matches(".end button") });
  if (first.select) first.select();
}
function barcode(text, room, high) {
  const { path, width } = bars(text), module = moduleFor(width, room);
  return svg("svg", { class: "bars", width: `${width * module}mm`, height: `${high}mm`, viewBox: `0 0 ${width} 1`, preserveAspectRatio: "none", role: "img",
    "aria-label": t`Bar code of ${text}`, "shape-rendering": "crispEdges" }, svg("path", { d: path }));
}
let topOfPages = null;
function openPaper(title, content, top = null, tools = []) {
  topOfPages = top;
  const print = button(t`Print`, () => globalThis.print(), "main"), away = button(t`Close`, () => dialog.close());
  openDialog(h("form", { method: "dialog", class: "preview" }, h("h2", { id: "title" }, title), h("div", { class: "sheets" }, content),
    h("div", { class: "end" }, tools, away, print)), print);
}
const style = () => document.styleSheets[0];
let hasTop = false;
function clearPaper() {
  at("paper").replaceChildren();
  if (hasTop) style().deleteRule(style().cssRules.length - 1);
  hasTop = false;
}
addEventListener("beforeprint", () => {
  clearPaper();
  const shown = dialog.open && dialog.querySelector(".sheets");
  if (!shown) return;
  at("paper").append(...[...shown.children].map((it) => it.cloneNode(true)));
  hasTop = topOfPages !== null;
  if (hasTop) style().insertRule(`@page { @top-left { content: ${JSON.stringify(topOfPages)}; font: 9pt sans-serif; } }`, style().cssRules.length);
});
addEventListener("afterprint", clearPaper);
const ROOM = 94, HIGH = 17, LOW = 12, SHORT = 20;
const codeOf = ({ lot, sub }) => (sub === 0 ? lot : `${lot}/${sub}`);
function label(part, def, { name, unit }) {
  const known = (what, ...value) => h("div", {}, h("span", {}, what), h("b", {}, ...value));
  const code = codeOf(part), place = part.place || t`no place`, isLong = [code, name, place].some((it) => it.length > SHORT);
  return h("section", { class: isLong ? "label long" : "label" }, h("h3", {}, code), barcode(code, ROOM, isLong ? LOW : HIGH),
    h("p", {}, h("b", {}, def), name && ` ${name}`),
    h("div", { class: "known" }, known(t`Amount`, `${grouped(part.stock)} ${unit}`), known(t`Came`, dated(dayOf(part.at))), known(t`Place`, place)));
}
async function showLabels(id, sub) {
  try {
    const lot = await lotNow(id), parts = lot ? partsOfLot(lot).filter((it) => sub === undefined || it.sub === sub) : [];
    if (!parts.length) return notice("bad", nothingIn(id, sub ?? null));
    const known = await desk.definition(lot.def);
    openPaper(parts.length === 1 ? t`Label of ${codeOf(parts[0])}` : t`${parts.length} labels of ${id}`, parts.map((it) => label(it, lot.def, known)));
  } catch (error) { notice("bad", whyNot(error)); }
}
function labelOffer({ do: word, lot, new: made }) {
  const id = { receive: lot, produce: lot, split: made, merge: made }[word];
  return id ? [button(t`Label`, () => showLabels(id), null, { "aria-label": t`Label of ${id}` })] : [];
}
const REFERENCE = "ABCDEFGHIJKLMNOPQRSTUVWXYZ234567";
const newReference = () => "WEB-" + Array.from(crypto.getRandomValues(new Uint8Array(20)), (byte) => REFERENCE[byte & 31]).join("");
const TAB = (() => {
  try {
    const name = sessionStorage.getItem("desk.tab") || newReference();
    sessionStorage.setItem("desk.tab", name);
    return name;
  } catch { return newReference(); }
})();
const OTHERS_WAIT = 60;
let sending = null;
const unanswered = () => kept("bookings", []);
const isOfAnother = (it) => Boolean(it.desk) && desk.name !== undefined && it.desk !== desk.name;
const isOffered = (it) => it.ref !== sending && !isOfAnother(it) && (it.tab === TAB || clock() - it.since > OTHERS_WAIT || clock() < it.since);
const keepBooking = (booking) => keep("bookings", [...unanswered().filter((it) => it.ref !== booking.ref), booking]);
function forgetBooking(ref) { keep("bookings", unanswered().filter((it) => it.ref !== ref)); drawWaiting(); }
function send(booking) {
  const { at: seconds, by, ref } = booking;
  const post = (path, body, headers) => request(path, { method: "POST", body, headers });
  if (booking.file !== undefined) return post("/v1/orders", booking.file,
    { "Content-Type": "text/csv", "Desk-At": String(seconds), "Desk-By": by, "Desk-Ref": ref });
  return post("/v1/commands", JSON.stringify({ at: seconds, by, ...booking.fields, ref }), { "Content-Type": "application/json" });
}
function isDecided({ status, body }) {
  return status === 200 ? Number.isSafeInteger(body.ok)
    : body.name !== undefined || body.csv !== undefined || body.fault === 2 || body.status === status;
}
async function deliver(booking) {
  sending = booking.ref;
  try {
    for (let tries = 0; ; tries += 1) {
      keepBooking(booking);
      const answer = await send(booking);
      if (!isDecided(answer)) return null;
      if (answer.body.name !== "MomentBack" || tries === 3) { forgetBooking(booking.ref); return answer; }
      await desk.lookAtMoment();
      booking = { ...booking, at: desk.now() };
    }
  } catch { return null; } finally { sending = null; drawWaiting(); }
}
async function book(what, content, isOneOfMany) {
  if (sending) return t`A booking is under way.`;
  if (unanswered().some((it) => it.tab === TAB && !isOfAnother(it))) return t`An earlier booking has no answer yet. Send it again first: see the top of the page.`;
  const booking = { what, at: desk.now(), by: operatorName(), ref: newReference(), tab: TAB, since: clock(), desk: desk.name, ...content };
  return settle(booking, await deliver(booking), isOneOfMany);
}
async function settle({ what, by, fields }, answer, isOneOfMany) {
  if (!answer) return LOST;
  if (answer.status !== 200) return plainly(answer);
  keepName(by);
  if (isOneOfMany) return null;
  notice("good", t`${what}. Number ${grouped(answer.body.ok)}. By ${by}.`, ...labelOffer(fields || {}));
  await show();
  return null;
}
async function sendAgain(booking) {
  if (sending) return;
  notice("", t`Sending again\u2026`);
  const wrong = await sentAgain(booking);
  if (wrong) notice("bad", wrong === LOST ? t`Still no answer.` : `${booking.what}: ${wrong}`);
}
async function sentAgain(booking) {
  sending = booking.ref;
  try { await desk.lookAtName(); } catch { return LOST; } finally { sending = null; drawWaiting(); }
  if (isOfAnother(booking)) return t`It was sent to another desk than the one that is served here now. It is kept until that one is back.`;
  return settle(booking, await deliver(booking));
}
function drawWaiting() {
  const told = (it) => h("span", {}, t`No answer came to \u201c${it.what}\u201d. It may have been taken or not. Sent again, it counts once.`);
  const row = (it) => h("div", {}, told(it), button(t`Send again`, () => sendAgain(it), "main"), button(t`Leave it`, () => leaveBooking(it)));
  at("waiting").replaceChildren(...unanswered().filter(isOffered).map(row));
}
function leaveBooking(booking) {
  form(t`Leave \u201c${booking.what}\u201d?`, [say(t`It isn't sent again. Whether the desk took it is seen in the views alone.`)], t`Leave it`,
    () => { forgetBooking(booking.ref); return null; }, { isGrave: true, booksNothing: true });
}
const command = (what, fields) => book(what, { fields });
async function bookEach(bookings, whyNotNext) {
  let count = 0, wrong = null;
  for (const { what, fields } of bookings) {
    wrong = await whyNotNext(count).catch(whyNot) || await book(what, { fields }, true);
    if (wrong) break;
    count += 1;
  }
  if (wrong !== LOST) await show();
  return { count, wrong };
}
async function bookAtOnce(what, content, label) {
  if (!hasOperator() || isInDoubt()) return form(what, [], label, () => book(what, content));
  const wrong = await book(what, content);
  if (wrong && wrong !== LOST) notice("bad", wrong);
}
const act = (what, fields) => bookAtOnce(what, { fields }, t`Book it`);
function bookingForm(title, fields, label, take, more) {
  const contentOf = (v) => {
    let content = null;
    take(v, (what, told) => { content = told; return LOST; });
    return content;
  };
  form(title, fields, label, (v) => take(v, command), { ...more, contentOf });
}
const EDGE = { left: 52, right: 10, top: 12, bottom: 24, high: 190, mostWide: 860, leastWide: 290 }, ON_BOARD = { wide: 400, high: 128 };
function sizeOf() {
  const wide = document.documentElement.clientWidth;
  if (location.hash.startsWith("#board")) return ON_BOARD;
  return { wide: Math.round(Math.max(EDGE.leastWide, Math.min(EDGE.mostWide, wide / (wide < 980 ? 1 : 2) - 66))), high: EDGE.high };
}
function plot(said, values, top, lines, unit, inner) {
  const { wide, high } = sizeOf(), across = (wide - EDGE.left - EDGE.right) / values.length, down = high - EDGE.top - EDGE.bottom;
  const x = (k) => EDGE.left + k * across, y = (n) => EDGE.top + down * (1 - n / top);
  const line = (n) => [svg("line", { class: "axis", x1: EDGE.left, x2: wide - EDGE.right, y1: y(n), y2: y(n) }),
    svg("text", { class: "tick", x: EDGE.left - 6, y: y(n) + 4, "text-anchor": "end" }, shortly(n), unit)];
  const ticks = [0, Math.floor((values.length - 1) / 2), values.length - 1].filter((k, at, all) => all.indexOf(k) === at && values[k].tick);
  const anchor = (k) => (k === 0 ? "start" : k === values.length - 1 ? "end" : "middle");
  const at = (k) => (k === 0 ? EDGE.left : k === values.length - 1 ? wide - EDGE.right : x(k + 0.5));
  const it = svg("svg", { width: wide, height: high, viewBox: `0 0 ${wide} ${high}`, role: "img", "aria-label": said }, lines.map(line),
    ticks.map((k) => svg("text", { class: "tick", x: at(k), y: high - 7, "text-anchor": anchor(k) }, values[k].tick)), inner(x, y, across));
  Object.assign(it.style, { maxWidth: "100%", height: "auto" });
  return h("div", { class: "plot" }, it);
}
const SIZES = [[1e12, "T"], [1e9, "G"], [1e6, "M"], [1e4, "k"]];
function shortly(n) {
  const [size, word] = SIZES.find(([it]) => n >= it) || [1, ""], of = word === "k" ? 1e3 : size;
  return marked(grouped(Number((n / of).toPrecision(3)))) + word;
}
const thick = (across) => Math.max(1, Math.min(32, across * 0.76));
function barPlot(said, values, unit = "", mark = null) {
  const most = Math.max(...values.map((it) => it.n)), top = mark ? Math.max(1.2 * mark, most) : roundUp(most);
  return plot(said, values, top, mark ? [0, mark / 2, mark] : [0, top / 2, top], unit, (x, y, across) => [
    values.map((it, k) => svg("rect", { class: `column ${it.tone || ""}`.trim(), x: x(k + 0.5) - thick(across) / 2, width: thick(across), y: y(it.n),
      height: Math.max(0, y(0) - y(it.n)) }, svg("title", {}, it.said))),
    mark !== null && svg("line", { class: "mark", x1: x(0), x2: x(values.length), y1: y(mark), y2: y(mark) })].filter(Boolean));
}
function stepPlot(said, values, unit = "") {
  const top = roundUp(Math.max(...values.map((it) => it.n)));
  return plot(said, values, top, [0, top / 2, top], unit, (x, y) => {
    const path = values.map((it, k) => `${k ? "V" : `M${x(0)} `}${y(it.n)}H${x(k + 1)}`).join("");
    return [svg("path", { class: "below", d: `${path}V${y(0)}H${x(0)}Z` }), svg("path", { class: "line", d: path })];
  });
}
function valuesOf(what, heads, rows) {
  return h("details", { class: "noprint" }, h("summary", { "aria-label": t`${what}: the values as a table` }, t`The values as a table`), table(heads, rows,
    "", true));
}
const valueRow = (name, ...values) => row(`value ${name}`, [cell(name), ...values.map(([n, unit]) => numberCell(n, unit))]);
function alarmBox() {
  const change = (event) => { keep("alarm", event.target.checked); if (event.target.checked) tone(); };
  return h("label", { class: "tick" }, h("input", { type: "checkbox", id: "alarm", checked: kept("alarm", false), onchange: change }),
    h("span", {}, t`A tone and a flash at a new hold or recall`));
}
let known = null, knownOf = null;
function watchFor(holds, recalls) {
  const all = new Map([...recalls.map((it) => [`recall ${it.recall}`, t`Recall ${it.recall} of lot ${it.lot}, by ${it.by}.`]),
    ...holds.map((it) => [`hold ${it.lot}.${it.hold}`, t`Hold ${it.hold} on lot ${it.lot}, by ${it.by}.`])]);
  const news = known && knownOf === desk.name ? newIn(all.keys(), known) : [];
  known = new Set(all.keys());
  knownOf = desk.name;
  if (news.length && kept("alarm", false)) alarm(news.map((it) => all.get(it)));
}
const TONES_OF_ALARM = 3, APART = 600, LASTS = 12_000;
let ending;
function alarm(texts) {
  for (let k = 0; k < TONES_OF_ALARM; k += 1) setTimeout(tone, k * APART);
  notice("bad", texts.join(" "));
  document.body.classList.add("alarm");
  clearTimeout(ending);
  ending = setTimeout(() => document.body.classList.remove("alarm"), LASTS);
}
const KEYS = { 0: "today^view", 1: "planner^view", 2: "shift^view", 3: "warehouse^view", 4: "quality^view",
  "/": "find a lot, a batch, an order or a recall", n: "to the button of a batch's next phase", r: "look again", "?": "this help",
  Esc: "close a form, leave the board", Enter: "to the next field of a form; books in the last one" };
const SCANS = "A scanner works wherever the cursor is, and books nothing: at a batch it opens the form with the scanned lot, in a form it chooses the lot, "
  + "elsewhere it finds.";
const BOOKINGS = "A booking can't be taken back: book the opposite, or scrap. It counts once, also where its answer is lost and it is sent again. Views look "
  + "again every 20 seconds.";
const WORDS = {
  "Orders and recipes": {
    "Draft, Approve, Withdraw": "A new version of a recipe is a draft. Once it is approved, orders of it can be taken in and released. A withdrawn "
      + "one is for no further release; batches go on.",
    "Order, Batch": "An order says what is wanted by when. Its release makes one batch, which the shift makes.",
    "Open, Released, Finished": "An open order waits for its release. A released one has a batch. It is finished once that batch is closed.",
    "Late": "Its due date is over, and it is neither finished nor cancelled.",
  },
  "Batches": {
    "Consume, Produce": "Consume books what goes into a batch, of the lot that it is taken of. Produce books what comes out, as a new lot.",
    "Asked, Booked, Left": "What the recipe wants at the order's size, what was consumed or produced so far, and what is missing of it.",
    "Pause, Hold (of a batch)": "Both interrupt a batch. After a pause it is resumed, after a hold restarted. A hold of a lot is another thing: see below.",
    "Stop, Abort": "Stop ends a batch in order before its time, Abort breaks it off. Both can be reset, and begin anew.",
    "Reset, Attempt": "A reset batch begins anew from its first phase, as another attempt. What was booked on it stays booked.",
    "Finish": "Pausing, stopping and the like take time. Finish says that the batch got there.",
    "Complete, Close": "A complete batch has done its work, and still takes bookings. A closed one takes none, and its order is finished.",
    "Parameter": "A value that the recipe gives for the phase after it, such as a temperature. The desk notes no measured value: book a step with a note.",
  },
  "Lots": {
    "Class, Material, Lot, Part": "A class is a group of materials. A lot is an amount of one material that is known by its id. Its parts are where it "
      + "is: F-1/2 is part 2 of lot F-1.",
    "Free, On hold, Recalled": "Free goods may be used. A hold keeps one lot from being consumed, split and merged, a recall also all that came of it.",
    "Hold, Recall": "Hold what may be wrong, and take the hold off once it is known. Recall what is wrong: it also reaches what was made of it, and "
      + "running batches.",
    "Take off, Lift": "A hold is taken off, a recall is lifted. The desk keeps who did it.",
    "Move, Split": "Move brings an amount to another place: it stays the same lot, as another part; the ledger says divided. Split makes an amount a "
      + "lot of its own.",
    "Merge": "Makes one new lot of parts of several lots of the same material.",
    "Scrap": "Books goods out that are spoiled or lost.",
    "Genealogy, Ledger, Record": "The genealogy shows what a lot came of and what came of it. The ledger has each booking of a lot, the record all of a batch.",
  },
  "This page": {
    "Number, Reference": "Each booking has a number, one after the other. Its reference keeps it from counting twice.",
    "Send again": "No answer came to a booking, which may have been taken or not. Sent again, it counts once.",
    "Short": "Orders and batches ask for more of a material than is free and is to be made until then.",
  },
};
function help() {
  const key = ([name, what]) => h("p", {}, h("kbd", {}, name), " ", t(what));
  const words = Object.entries(WORDS).map(([about, all]) => [h("h3", {}, t(about)),
    h("dl", {}, Object.entries(all).map(([name, what]) => [h("dt", {}, t(name)), h("dd", {}, t(what))]))]);
  const end = h("div", { class: "end" }, h("button", { class: "main" }, t`Close`));
  const it = h("form", { method: "dialog", class: "help" }, h("h2", { id: "title" }, t`Keys and help`),
    h("p", { class: "row" }, choice(t`Language`, languages, spokenName(), chooseLanguage)), h("div", { class: "keys" }, Object.entries(KEYS).map(key)),
    h("p", { class: "soft" }, t(SCANS)), h("p", { class: "soft" }, t(BOOKINGS)), h("h2", {}, t`Words`), words, end);
  openDialog(it, end.firstChild);
}
"##;

/// Its entity tag.
pub const FORMS_TAG: &str = "\"c9ebd368a0bae18ff469ce85aac8c44f\"";
