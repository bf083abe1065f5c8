//! What the page computes of values, as it is sent. make/page.py writes this file of what is in page/.

/// Its bytes: JavaScript in ASCII.
pub const VALUES: &[u8] = br##""use strict";
let texts = new Map();
function sayAs(table) { texts = new Map(Object.entries(table)); }
function t(pieces, ...values) {
  const text = typeof pieces === "string" ? pieces : pieces.reduce((all, it, k) => `${all}{${k - 1}}${it}`);
  const said = texts.has(text) ? texts.get(text) : text.replace(/\^\w+$/, "");
  return said.replace(/\{(\d)\}/g, (place, k) => (Number(k) < values.length ? String(values[k]) : place));
}
const grouped = (n) => String(n).replace(/\B(?=(\d{3})+$)/g, "\u202f");
const counted = (n, one, many) => `${grouped(n)} ${t(n === 1 ? one : many)}`;
const marked = (text) => text.replace(".", t(".^decimal"));
const decimal = (n, places) => marked(n.toFixed(places));
const capital = (word) => word[0].toUpperCase() + word.slice(1);
const excess = ({ asked, booked }, amount = 0) => Math.max(0, booked + amount - asked);
function doubtOf(line, amount, before) {
  if (!excess(line, amount)) return null;
  const { asked, booked, unit } = line, told = (n) => `${grouped(n)} ${unit}`, all = booked + amount, times = Math.floor(all / asked);
  const meanwhile = booked > before ? t`Since the form was opened, ${told(booked - before)} was booked. ` : "";
  return `${meanwhile}${t`Asked ${told(asked)}, booked ${told(booked)}: this makes ${told(all)}`}${times > 1 ? t`, ${grouped(times)} times what was asked` : ""}.`;
}
const two = (n) => String(n).padStart(2, "0");
const clock = () => Math.floor(Date.now() / 1000);
const day = (date) => `${date.getFullYear()}-${two(date.getMonth() + 1)}-${two(date.getDate())}`;
const dayOf = (seconds) => (seconds === null ? "" : day(new Date(seconds * 1000)));
function timeOf(seconds, isExact) {
  const date = new Date(seconds * 1000);
  return `${two(date.getHours())}:${two(date.getMinutes())}${isExact ? ":" + two(date.getSeconds()) : ""}`;
}
const parts = (text) => text.split("-");
function dated(text) {
  const [year, month, date] = parts(text);
  return date ? t`${year}-${month}-${date}` : text;
}
function shortDay(text) {
  const [, month, date] = parts(text);
  return t`${month}-${date}`;
}
const moment = (seconds, isExact) => `${dated(dayOf(seconds))} ${timeOf(seconds, isExact)}`;
const stamp = (seconds) => `${dayOf(seconds)} ${timeOf(seconds, true)}`;
const clockOffset = (told, first, last) => (told < first ? told - first : told > last ? told - last : 0);
const HOUR = 3600, DAY = 86400;
function lengthOfTime(seconds) {
  const countOf = (size) => Math.max(1, Math.round(seconds / size));
  return seconds >= 2 * DAY ? counted(countOf(DAY), "day", "days") : seconds >= 2 * HOUR ? counted(countOf(HOUR), "hour", "hours")
    : counted(countOf(60), "minute", "minutes");
}
function ageInDays(seconds, now) {
  const noon = (at) => new Date(at * 1000).setHours(12, 0, 0, 0), count = Math.max(0, Math.round((noon(now) - noon(seconds)) / 86400e3));
  return count === 0 ? t`today` : counted(count, "day", "days");
}
const stampWord = () => clock().toString(36).toUpperCase();
const isId = (text) => /^[A-Z][A-Z0-9-]{0,23}$/.test(text);
const idOf = (...parts) => parts.join("-").slice(0, 24);
const IN_ORDER = "-0123456789ABCDEFGHIJKLMNOPQRSTUVWXYZ";
function idBefore(id) {
  const start = id.slice(0, -1), last = IN_ORDER.indexOf(id.at(-1));
  if (last === 0) return start;
  const before = (start + IN_ORDER[last - 1]).padEnd(24, "Z");
  return isId(before) ? before : id;
}
const LETTERS = { "\u00e4": "ae", "\u00f6": "oe", "\u00fc": "ue", "\u00c4": "Ae", "\u00d6": "Oe", "\u00dc": "Ue", "\u00df": "ss", "\u00e6": "ae",
  "\u00c6": "Ae", "\u00f8": "oe", "\u00d8": "Oe", "\u00e5": "aa", "\u00c5": "Aa", "\u0142": "l", "\u0141": "L", "\u0131": "i", "\u20ac": "EUR",
  "\u2013": "-", "\u2019": "'", "\u201e": "\"", "\u201c": "\"", "\u201d": "\"", "\u00b0": " deg" };
function plainText(text) {
  const plain = [...text.normalize("NFC")].map((it) => LETTERS[it] || it.normalize("NFD").replace(/[\u0300-\u036f]/g, "")).join("");
  return /^[ -~]*$/.test(plain) ? plain : null;
}
const ID_RULE = "letters, digits and -, a letter first, at most 24";
function readAddress(hash) {
  const [path, query = ""] = hash.replace(/^#/, "").split("?"), [name, ...words] = path.split("/");
  const filters = query.split("&").map((it) => it.split("=")).filter(([key, value]) => /^[a-z]+$/.test(key) && /^[A-Za-z0-9%_.~!'()*-]+$/.test(value || ""));
  return { name, words, filters: new Map(filters.map(([key, value]) => [key, decoded(value)])) };
}
function decoded(value) {
  try { return decodeURIComponent(value); } catch { return ""; }
}
const withQuery = (path, filters) => path + (filters.size ? "?" : "") + [...filters].map(([key, value]) => `${key}=${encodeURIComponent(value)}`).join("&");
function withFilter(hash, key, value) {
  const { name, words, filters } = readAddress(hash);
  filters.delete(key);
  if (value !== null) filters.set(key, value);
  return withQuery([name, ...words].join("/"), filters);
}
function placeFrom(hash, path) {
  const { name, filters } = readAddress(hash);
  return path.split("/")[0] === name ? withQuery(path, filters) : path;
}
const wordsOf = (hash) => { const { name, words } = readAddress(hash); return [name, ...words]; };
const isSamePlace = (one, other) => wordsOf(one).join("/") === wordsOf(other).join("/");
function isAbove(one, other) {
  const words = wordsOf(one), others = wordsOf(other);
  return words.length < others.length && words.every((it, k) => it === others[k]);
}
const separatorOf = (locale) => (new Intl.NumberFormat(locale).formatToParts(1.5).some((it) => it.type === "decimal" && it.value === ",") ? ";" : ",");
function written(value, separator) {
  if (typeof value === "number" || typeof value === "bigint") return String(value);
  const text = value == null ? "" : value === true ? t`yes` : value === false ? t`no` : String(value);
  const harmless = /^[=+\-@\t\r]/.test(text) ? `'${text}` : text;
  return /["\r\n]/.test(harmless) || harmless.includes(separator) ? `"${harmless.replaceAll("\"", "\"\"")}"` : harmless;
}
const csvOf = (rows, separator) => rows.map((row) => `${row.map((it) => written(it, separator)).join(separator)}\r\n`).join("");
const column = (it) => (typeof it === "string" ? [capital(it), (item) => item[it]] : it);
function rowsOf(items, columns) {
  const all = columns.map(column);
  return [all.map(([name]) => t(name)), ...items.map((item) => all.map(([, value]) => value(item)))];
}
const MATERIAL = ["Material", (it) => it.def], WHEN = ["When", (it) => stamp(it.at)], AMOUNT = ["Amount", (it) => it.amount];
const COLUMNS = {
  orders: ["order", "state", "due", "priority", "recipe", "version", "size"],
  batches: ["batch", "order", "state", "attempt", ["Phases done", (it) => it.next - 1], "phases", ["Next phase", (it) => it.phase], "closed",
    ["On unit", (it) => it.phase_unit], ["Last event", (it) => stamp(it.at)], "due", "priority", "recipe", "version", "title", "product", "size", "unit"],
  materials: ["class", MATERIAL, "name", "unit", "lots", ["Free", (it) => it.usable], ["On hold", (it) => it.held], "recalled"],
  stands: ["place", "lot", ["Part", (it) => it.no], MATERIAL, ["Amount", (it) => it.stock], "unit", ["On hold", (it) => it.held], "recalled", "seen"],
  balance: [MATERIAL, "lot", "unit", "received", "produced", ["Of other lots", (it) => it.others], "consumed", "scrapped", ["To other lots", (it) => it.passed],
    ["In stock", (it) => it.stock], ["Where", (it) => it.where], ["On hold", (it) => it.held], "recalled"],
  lots: ["lot", MATERIAL, ["Part", (it) => it.no], "place", "stock", "unit", ["On hold", (it) => it.held], "recalled", ["Came", (it) => dayOf(it.at)], "by", "note",
    ["Number", (it) => it.seq]],
  ledger: [["Number", (it) => it.seq], "line", WHEN, "by", ["What", (it) => it.kind], AMOUNT, "unit", "lot", ["Part", (it) => it.sub], ["To lot", (it) => it.to],
    ["To part", (it) => it.to_sub], "batch", "note"],
  places: [["Place", (it) => it.place], ["Parts", (it) => it.parts.length], ["Materials", (it) => it.materials]],
  history: [["Number", (it) => it.seq], ["When", (it) => it.at && stamp(it.at)], "by", ["What", (it) => it.do], ["Details", (it) => it.details], "note", ["Reference", (it) => it.ref]],
  commands: [["Number", (it) => it.seq], ["When", (it) => it.at && stamp(it.at)], "by", ["What", (it) => it.do], "note", ["Reference", (it) => it.ref]],
  holds: ["lot", "hold", WHEN, "by", "note"],
  recalls: ["recall", "lot", WHEN, "by", "note", ["Lifted", (it) => it.lift && stamp(it.lift.at)], ["Lifted by", (it) => it.lift?.by],
    ["Lifted for", (it) => it.lift?.note]],
  recipes: ["recipe", "version", "state", "title", "product", ["Base size", (it) => it.base], ["Least size", (it) => it.min], ["Greatest size", (it) => it.max]],
  record: ["table", "number", "what", "lot", MATERIAL, AMOUNT, "unit", "asked", "scrapped", "value", ["When", (it) => it.at && stamp(it.at)], "by", "note"],
};
const partsOfLots = (lots) => lots.flatMap((lot) => lot.sublots.filter((it) => it.stock).map((it) => ({ ...lot, ...it })));
function rowsOfRecord(record, lines) {
  const booked = (table, what) => ({ seq, words: [lot, def, amount, unit, , scrapped], ...it }) => ({ ...it, table, number: seq, what, lot, def,
    amount: Number(amount), unit, scrapped: what === "produced" ? Number(scrapped) : null });
  return [
    ...record.lines.map((it, k) => ({ table: t`Control recipe`, number: k + 1, what: it.kind, def: it.def || it.name || it.path, amount: it.amount, unit: it.unit,
      value: it.value })),
    ...record.events.map(({ seq, words, ...it }) => ({ ...it, table: t`Events`, number: seq })),
    ...record.consumed.map(booked(t`Consumed`, "consumed")), ...record.produced.map(booked(t`Produced`, "produced")),
    ...lines.map((it) => ({ table: t`Totals`, what: it.kind, def: it.def, amount: it.booked, asked: it.asked, unit: it.unit })),
  ];
}
const LISTS = {
  orders_by_due: ["orders", (it) => `${it.due}.${it.order}`],
  batches: ["batches", (it) => it.batch],
  closed_batches: ["batches", (it) => it.batch],
  stock: ["lots", (it) => `${it.seq ?? 0}.${it.lot}`],
  stocks: ["stocks", (it) => it.def],
  holds: ["holds", (it) => it.hold],
  all_holds: ["holds", (it) => `${it.lot}.${it.hold}`],
  recalls: ["recalls", (it) => it.recall],
  lifted_recalls: ["recalls", (it) => it.recall],
  classes: ["classes", (it) => it.class],
  definitions: ["definitions", (it) => it.def],
  recipes: ["recipes", (it) => `${it.recipe}.${it.version}`],
  commands: ["commands", (it) => it.seq],
  movements: ["movements", (it) => `${it.seq}.${it.line}`],
};
const PAGE = 100;
function readPage(path, page) {
  const [member, cursor] = LISTS[path.split("/")[0]], items = page[member];
  return { items, last: page.more && items.length ? cursor(items.at(-1)) : null };
}
const LINES_HINT = "One to a line: in MATERIAL AMOUNT, out MATERIAL AMOUNT, par NAME VALUE, phase UNIT OPERATION PHASE.";
const LINES_EXAMPLE = "in FLOUR 200\nout DOUGH 300\npar TEMP 20 C\nphase MIX BLEND STIR";
function recipeLines(text) {
  const lines = [];
  for (const [k, line] of text.split("\n").entries()) {
    if (!line.trim()) continue;
    const read = recipeLine(line.trim().split(/\s+/));
    if (!read) return [null, `${t`Line ${k + 1} can't be read.`} ${t(LINES_HINT)}`];
    lines.push(read);
  }
  return [lines, null];
}
function recipeLine([kind, ...words]) {
  const ids = words.map((it) => it.toUpperCase()), isAmount = /^[0-9]{1,16}$/.test(words[1]);
  if ((kind === "in" || kind === "out") && words.length === 2 && isId(ids[0]) && isAmount) return { kind, def: ids[0], qty: Number(words[1]) };
  if (kind === "par" && words.length >= 1 && isId(ids[0])) return { kind, name: ids[0], value: words.slice(1).join(" ") };
  if (kind === "phase" && words.length === 3 && ids.every(isId)) return { kind, unit: ids[0], oper: ids[1], phase: ids[2] };
  return null;
}
const LINE_TEXTS = { in: (it) => `in ${it.def} ${it.qty}`, out: (it) => `out ${it.def} ${it.qty}`, par: (it) => `par ${it.name} ${it.value}`.trim(),
  phase: (it) => `phase ${it.unit} ${it.oper} ${it.phase}` };
const linesText = (lines) => lines.map((it) => LINE_TEXTS[it.kind](it)).join("\n");
const COUNTS = { in: 2, out: 2, par: 2, phase: 3 };
const lineWords = (text) => text.split("\n").map((it) => it.trim()).filter(Boolean).map((line) => {
  const [kind, ...rest] = line.split(/\s+/), count = Object.hasOwn(COUNTS, kind) && COUNTS[kind];
  const words = kind === "par" ? [rest[0], rest.slice(1).join(" ")] : rest;
  const word = (it, k) => (k === 0 || kind === "phase" ? it.toUpperCase() : it);
  return count && words.length <= count ? { kind, words: Array.from({ length: count }, (_, k) => word(words[k] || "", k)) } : { kind: null, words: [line] };
});
const lineOf = ({ kind, words }) => (kind ? [kind, ...words].join(" ").trim() : words[0]);
function scaled(amount, base, size) {
  const [q, b, s] = [amount, base, size].map(BigInt);
  return Number((2n * q * s + b) / (2n * b));
}
const withPath = (line) => (line.kind === "phase" ? { kind: "phase", phase: line.phase, path: `${line.unit} ${line.oper} ${line.phase}` } : line);
const isMaterial = (line) => line.kind === "in" || line.kind === "out";
function procedureOf(lines) {
  const phases = [];
  let parameters = [];
  for (const it of lines) {
    if (it.kind === "par") parameters.push(it);
    if (it.kind !== "phase") continue;
    phases.push({ ...it, parameters });
    parameters = [];
  }
  return { phases, last: parameters };
}
const SECTIONS = { "CONTROL RECIPE": "lines", EVENTS: "events", CONSUMED: "consumed", PRODUCED: "produced", TOTALS: "totals", END: "end" };
function readRecord(text) {
  const record = { text, head: [], lines: [], events: [], consumed: [], produced: [], totals: [], end: [] };
  const read = { head: (line) => line, lines: readRecipeLine, events: readStamped, consumed: readStamped, produced: readStamped,
    totals: readTotal, end: (line) => line };
  let section = "head";
  for (const line of text.split("\n")) {
    if (SECTIONS[line]) section = SECTIONS[line];
    else record[section].push(read[section](line));
  }
  record.released = readStamped("0 " + record.head[3]);
  namePhases(record);
  return record;
}
function namePhases({ lines, events }) {
  const phases = lines.filter((it) => it.kind === "phase");
  for (const it of events) {
    const [, number] = /^phase (\d+)$/.exec(it.what) || [], phase = phases[number - 1];
    if (phase) it.what += `: ${phase.path}`;
  }
}
function readRecipeLine(line) {
  const [, kind, ...words] = line.trim().split(" ");
  if (kind === "in" || kind === "out") return { kind, def: words[0], amount: Number(words[1]), unit: words[2] };
  if (kind === "par") return { kind, name: words[0], value: words.slice(1).join(" ") };
  return { kind, phase: words[2], path: words.join(" ") };
}
function readStamped(line) {
  const [, seq, what, seconds, by, note] = /^ *(\d+) (.*?) at (\d+) by (.*?)(?: note (.*))?$/.exec(line) || [null, "", line, "0", "", ""];
  return { seq: Number(seq), what, words: what.split(" "), at: Number(seconds), by, note: note || "" };
}
function readTotal(line) {
  const [kind, def, , , , booked] = line.split(" ");
  return { kind, def, booked: Number(booked) };
}
const keyOfPart = (it) => `${it.lot}/${it.sub}`;
const placeOfPart = (it) => t`${keyOfPart(it)} at ${it.place || t`no place`}`;
const cameInWords = (it) => (it.at === null ? "" : t`, came ${dated(dayOf(it.at))}`);
const partInWords = (it, unit) => `${placeOfPart(it)}: ${grouped(it.stock)} ${unit}${cameInWords(it)}${it.barred ? `, ${it.barred}` : ""}`;
const REFUSALS = {
  BadForm: "The desk can't read that. Look for a value that breaks its rule.",
  MomentBack: "The desk's last booking is later than its machine's clock. Look at that clock.",
  Exists: "That id is taken already. Take another one.",
  UnknownClass: "There is no such class.",
  UnknownDefinition: "There is no such material.",
  UnknownRecipe: "There is no such version of a recipe.",
  UnknownOrder: "There is no such order.",
  UnknownBatch: "There is no such batch.",
  UnknownLot: "There is no such lot.",
  UnknownSublot: "The lot has no such part.",
  NotDraft: "Only a draft can be approved.",
  NotApproved: "That version of the recipe isn't approved.",
  TooLittle: "There is less than that in this part of the lot.",
  TooMuch: "The merged lot would have more than a lot may have.",
  Held: "The lot is on hold. Quality can take the hold off.",
  OrderConflict: "An order of that id is there already, with other values.",
  OrderNotOpen: "The order is released, finished or cancelled already.",
  SizeOutOfRange: "The size isn't within the least and the greatest of the recipe.",
  ScaledToNothing: "At this size a line of the recipe comes to nothing. A larger order is wanted.",
  BadMove: "The batch can't do that in its state. It may have moved on: look again.",
  PhasesLeft: "A phase is still to be done.",
  NotNextPhase: "It isn't the turn of that phase. It may be done already: look again.",
  BatchClosed: "The batch is closed.",
  WrongState: "The batch has to be started first, and phases are done while it runs.",
  NotInRecipe: "The recipe of the batch doesn't have this material.",
  OwnProduct: "The lot came of this very batch.",
  MixedMaterials: "The parts are of two materials.",
  TooMany: "A limit is reached: parts of a lot, attempts of a batch, or bookings of the desk.",
  HoldUnknown: "There is no such hold on the lot. It may have been taken off already.",
  NotFinished: "A batch is closed once it is complete, stopped or aborted.",
  RefReused: "Another booking has this reference already.",
  Recalled: "The lot is recalled, or came of one that is. Take other goods.",
  UnknownRecall: "There is no such recall.",
  RecallLifted: "That recall was lifted before.",
};
const FILE_FAULTS = {
  TooLong: "The file is longer than 262,144 bytes.",
  Header: "The first line isn't order,recipe,version,size,due,priority.",
  Shape: "The line hasn't six fields.",
  Order: "The order isn't an id.",
  Recipe: "The recipe isn't an id.",
  Version: "The version isn't a number from 1 to 999.",
  Size: "The size isn't a whole number from 1.",
  Due: "The due date isn't a day like 2027-03-01.",
  Priority: "The priority isn't a number from 1 to 9.",
  TooManyRows: "It has more than 1,000 orders.",
  Memory: "The desk is out of memory.",
};
const STATES = {
  idle: { start: "running" },
  running: { done: "complete", pause: "pausing", hold: "holding", stop: "stopping", abort: "aborting" },
  pausing: { done: "paused", hold: "holding", stop: "stopping", abort: "aborting" },
  paused: { resume: "running", hold: "holding", stop: "stopping", abort: "aborting" },
  holding: { done: "held", stop: "stopping", abort: "aborting" },
  held: { restart: "restarting", stop: "stopping", abort: "aborting" },
  restarting: { done: "running", hold: "holding", stop: "stopping", abort: "aborting" },
  stopping: { done: "stopped", abort: "aborting" },
  stopped: { reset: "idle", abort: "aborting" },
  aborting: { done: "aborted" },
  aborted: { reset: "idle" },
  complete: { reset: "idle" },
};
const MAY_CLOSE = ["complete", "stopped", "aborted"];
const TONES = { running: "good", restarting: "good", complete: "good", pausing: "warn", paused: "warn", holding: "warn", held: "warn",
  stopping: "bad", stopped: "bad", aborting: "bad", aborted: "bad" };
const MOVES = { start: "Start", pause: "Pause", hold: "Hold^batch", stop: "Stop", abort: "Abort", resume: "Resume", restart: "Restart", reset: "Reset" };
const SAID = [
  ...Object.keys(STATES), "open", "released", "finished", "cancelled", "draft", "approved", "withdrawn", "in", "out", "par", "phase",
  "received", "consumed", "produced", "scrapped", "divided", "split", "merged", "lot", "batch", "order", "recall", "material",
  "recipe",
];
const COMMANDS = [
  "add_class", "add_definition", "add_recipe", "approve", "withdraw", "import_orders", "cancel_order", "release", "batch", "phase_done", "settle",
  "close_batch", "receive", "consume", "produce", "scrap", "divide", "split", "merge", "hold", "unhold", "recall", "lift",
];
const wordOf = (word) => (SAID.includes(word) ? t(word) : word);
const commandWord = (word) => (COMMANDS.includes(word) ? t(`${word}^command`) : word);
const FIELD_NAMES = {
  add_class: ["class", "name"], add_definition: ["material", "class", "name", "unit"], receive: ["lot", "material", "amount", "place"],
  scrap: ["lot", "part", "amount"], divide: ["lot", "part", "amount", "place"], split: ["lot", "part", "amount", "new lot", "place"],
  merge: ["new lot", "place", "lots"], hold: ["lot", "hold"], unhold: ["lot", "hold"], recall: ["recall", "lot"], lift: ["recall"],
  add_recipe: ["recipe", "version"], approve: ["recipe", "version"], withdraw: ["recipe", "version"], import_orders: ["orders"], cancel_order: ["order"],
  release: ["order", "batch"], batch: ["batch", ""], settle: ["batch"], phase_done: ["batch", "phase"], close_batch: ["batch"],
  consume: ["batch", "lot", "part", "amount"], produce: ["batch", "lot", "material", "amount", "place"],
};
const fieldInWords = (name, value) => (name === "" ? eventInWords(value) : `${t(name)} ${name === "amount" ? grouped(value) : value}`);
function fieldsInWords(word, fields) {
  const names = FIELD_NAMES[word] ?? [], parts = word === "merge" ? Array.from({ length: Number(fields[2]) }, (_, k) => `${fields[3 * k + 3]}/${fields[3 * k + 4]}`) : [];
  return [...names.map((name, k) => fieldInWords(name, fields[k])), ...parts].join(", ");
}
const EVENTS = ["start", "done", "pause", "hold", "stop", "abort", "resume", "restart", "reset", "close", "phase"];
function eventInWords(event) {
  const [word, ...rest] = event.split(" ");
  return EVENTS.includes(word) ? [t(`${word}^event`), ...rest].join(" ") : event;
}
const refusalOf = (name) => (Object.hasOwn(REFUSALS, name) ? t(REFUSALS[name]) : "");
function plainly({ status, body }) {
  if (body.csv) return `${body.row ? t`Row ${body.row} of the file, the header being row 0: ` : ""}${t`${t(FILE_FAULTS[body.csv] || "")} (${body.csv}) Nothing was taken in.`}`;
  if (body.ahead) return t`The moment is more than ${body.ahead} seconds ahead of the clock of the desk's machine. Look at that clock. Nothing was booked.`;
  if (body.name) return `${refusalOf(body.name) || t`The desk refuses that.`} (${body.name})`;
  if (body.fault === 2) return t`The desk is out of memory for now. Nothing has changed: try again.`;
  if (body.fault) return t`The desk's store failed. Somebody has to look at the machine of the desk.`;
  if (status === 403) return t`The desk doesn't serve this page under this name, or to who is logged in. (403)`;
  if (status === 413) return t`That is longer than 262,144 bytes. (413)`;
  return t`The desk doesn't know that. (${status})`;
}
const LOST = "No answer came. The booking may have been taken or not: send it again, and it counts once.";
const GAP = 30;
const TWICE = 2000;
const LEAST = 2;
const NO_KEYS = { text: "", last: -Infinity };
function pressed(keys, key, time) {
  const isQuick = time - keys.last < GAP;
  if (key === "Enter") return { ...NO_KEYS, code: isQuick && keys.text.length >= LEAST ? keys.text : null };
  if (key === "Shift" || key === "CapsLock") return isQuick ? { ...keys, last: time, isFirst: false } : NO_KEYS;
  if (key.length !== 1) return NO_KEYS;
  return isQuick ? { text: keys.text + key, last: time, isFirst: false } : { text: key, last: time, isFirst: true };
}
const isAgain = (before, code, time) => before.code === code && time - before.time < TWICE;
function lotOfSupplier(code) {
  const word = code.toUpperCase().replace(/[^A-Z0-9]+/g, "-").replace(/^-|-$/g, "");
  return word ? idOf("L", word) : null;
}
function lotOf(code) {
  const [, word, no] = /^\/?(.*?)(?:\/([0-9]{1,3}))?$/.exec(code.trim().toUpperCase());
  return { lot: isId(word) ? word : lotOfSupplier(word), sub: no === undefined ? null : Number(no) };
}
function withCode(note, code) {
  const word = t`supplier's code ${code.replace(/[^ -~]/g, "?")}`;
  return (note.includes(word) ? note : note ? `${word}; ${note}` : word).slice(0, 60);
}
const WORDS_OF_BARS = (
  "212222 222122 222221 121223 121322 131222 122213 122312 132212 221213 221312 231212 112232 122132 122231 113222 123122 123221 "
  + "223211 221132 221231 213212 223112 312131 311222 321122 321221 312212 322112 322211 212123 212321 232121 111323 131123 131321 "
  + "112313 132113 132311 211313 231113 231311 112133 112331 132131 113123 113321 133121 313121 211331 231131 213113 213311 213131 "
  + "311123 311321 331121 312113 312311 332111 314111 221411 431111 111224 111422 121124 121421 141122 141221 112214 112412 122114 "
  + "122411 142112 142211 241211 221114 413111 241112 134111 111242 121142 121241 114212 124112 124211 411212 421112 421211 212141 "
  + "214121 412121 111143 111341 131141 114113 114311 411113 411311 113141 114131 311141 411131 211412 211214 211232 2331112").split(" ");
const START_B = 104, STOP = 106, MODULUS = 103;
function codeWords(text) {
  if (!/^[ -~]+$/.test(text)) return null;
  const letters = [...text].map((it) => it.charCodeAt(0) - 32);
  const check = letters.reduce((sum, it, k) => sum + (k + 1) * it, START_B) % MODULUS;
  return [START_B, ...letters, check, STOP];
}
const QUIET = 10;
function bars(text) {
  const widths = codeWords(text).flatMap((it) => [...WORDS_OF_BARS[it]].map(Number));
  let x = QUIET, path = "";
  widths.forEach((it, k) => { if (k % 2 === 0) path += `M${x} 0h${it}v1h-${it}z`; x += it; });
  return { path, width: x + QUIET };
}
const MODULES = [0.5, 0.375, 0.25];
const moduleFor = (count, room) => MODULES.find((it) => count * it <= room) || MODULES.at(-1);
function takenOf(parts, amount) {
  let short = amount;
  const taken = [];
  for (const it of parts) {
    const some = Math.min(short, it.stock);
    if (some > 0) taken.push({ ...it, amount: some });
    short -= Math.max(0, some);
  }
  return { taken, short };
}
const openInputs = (lines) => lines.filter((it) => it.kind === "in" && it.booked < it.asked).map((it) => ({ ...it, left: it.asked - it.booked }));
function partsByPlace(parts) {
  const all = new Map();
  for (const it of parts) all.set(it.place, [...(all.get(it.place) || []), it]);
  const byAge = (a, b) => (a.seq ?? 0) - (b.seq ?? 0) || (a.lot < b.lot ? -1 : a.lot > b.lot ? 1 : a.sub - b.sub);
  return [...all].sort(([a], [b]) => (a < b ? -1 : 1)).map(([place, some]) => ({ place, parts: some.sort(byAge),
    materials: new Set(some.map((it) => it.def)).size }));
}
const compared = (a, b) => (a < b ? -1 : a > b ? 1 : 0);
const sortedBy = (items, of, isBack) => [...items].sort((a, b) => (isBack ? -1 : 1) * compared(of(a), of(b)));
const OF_PARTS = { came: (it) => it.at ?? 0, lot: (it) => it.lot, material: (it) => it.def, place: (it) => it.place, stock: (it) => it.stock };
const partValue = (by) => OF_PARTS[by];
const upTo = (items, count, isMore) => Object.assign(items.slice(0, count), { more: isMore || items.length > count });
const bySooner = (a, b) => compared(a.due, b.due) || b.priority - a.priority;
const BY = {
  due: bySooner, order: (a, b) => compared(a.order, b.order), priority: (a, b) => b.priority - a.priority, size: (a, b) => a.size - b.size,
  recipe: (a, b) => compared(a.recipe, b.recipe) || a.version - b.version,
};
const sortedOrders = (orders, by, isBack) => [...orders].sort((a, b) => (isBack ? -1 : 1) * BY[by](a, b) || bySooner(a, b));
function filteredOrders(orders, recipe, text, titleOf) {
  const words = text.toUpperCase().split(/\s+/).filter(Boolean);
  const isMeant = (it) => words.every((word) => `${it.order} ${it.recipe} ${it.version} ${titleOf(it)} ${it.due} ${dated(it.due)}`.toUpperCase().includes(word));
  return orders.filter((it) => (!recipe || it.recipe === recipe) && isMeant(it));
}
function inAll(demands) {
  const all = new Map();
  for (const { def, amount, unit } of demands) all.set(def, { def, unit, asked: (all.get(def)?.asked || 0) + amount });
  return [...all.values()];
}
function dayAfter(day, days) {
  const [year, month, date] = day.split("-").map(Number);
  return new Date(Date.UTC(year, month - 1, date + days)).toISOString().slice(0, 10);
}
const dueBy = (items, today) => ({ late: items.filter((it) => it.due < today), today: items.filter((it) => it.due === today) });
function dueByDay(items, first, count) {
  const days = Array.from({ length: count }, (_, k) => ({ day: dayAfter(first, k), count: 0 })), byDay = new Map(days.map((it) => [it.day, it]));
  let before = 0, after = 0;
  for (const { due } of items) {
    if (byDay.has(due)) byDay.get(due).count += 1;
    else if (due < first) before += 1;
    else after += 1;
  }
  return { days, before, after };
}
function shortage(demands, made, stocks) {
  const all = new Map(), coming = new Map();
  for (const { def, amount } of made) coming.set(def, (coming.get(def) || 0) + amount);
  for (const it of [...demands].sort((a, b) => (a.due < b.due ? -1 : a.due > b.due ? 1 : 0))) {
    const { usable = 0, name = "", unit = it.unit || "" } = stocks.get(it.def) || {}, there = usable + (coming.get(it.def) || 0);
    const one = all.get(it.def) || { def: it.def, name, unit, asked: 0, free: usable, made: coming.get(it.def) || 0, from: null };
    one.asked += it.amount;
    if (one.from === null && one.asked > there) one.from = it.due;
    all.set(it.def, { ...one, short: one.asked - there });
  }
  return [...all.values()].filter((it) => it.short > 0).sort((a, b) => (a.from < b.from ? -1 : a.from > b.from ? 1 : a.def < b.def ? -1 : 1));
}
function lacksOf({ lines, base }, size, stocks) {
  const asked = inAll(lines.filter((it) => it.kind === "in").map((it) => ({ def: it.def, unit: it.unit || "", amount: scaled(it.qty, base, size) })));
  return asked.map((it) => ({ def: it.def, unit: it.unit, short: it.asked - (stocks.get(it.def)?.usable || 0) })).filter((it) => it.short > 0);
}
function yieldOf(lines, product) {
  const outputs = lines.filter((it) => it.kind === "out" && it.def === product), sum = (what) => outputs.reduce((all, it) => all + it[what], 0);
  const asked = sum("asked"), booked = sum("booked");
  return asked ? { asked, booked, percent: (100 * booked) / asked, unit: outputs[0].unit || "" } : null;
}
function changeOf(movement, lot) {
  const { kind, amount, to } = movement;
  if (kind === "divided") return 0;
  return kind === "received" || kind === "produced" || ((kind === "split" || kind === "merged") && to === lot) ? amount : -amount;
}
function stockByDay(ledgers, first, count) {
  const days = Array.from({ length: count }, (_, k) => ({ day: dayAfter(first, k), stock: 0 })), last = days.at(-1).day;
  for (const { lot, movements } of ledgers) {
    for (const it of movements) {
      const day = dayOf(it.at), change = changeOf(it, lot);
      const from = day > last ? count : day < first ? 0 : days.findIndex((one) => one.day === day);
      for (let k = from; k < count; k += 1) days[k].stock += change;
    }
  }
  return days;
}
function roundUp(n) {
  const power = 10 ** Math.floor(Math.log10(Math.max(n, 1)));
  return [2, 4, 6, 10, 20].map((it) => it * power).find((it) => it >= n);
}
const newIn = (keys, before) => [...keys].filter((it) => !before.has(it));
const nameOfNode = (node) => (node.lot ? "lot " + node.lot : "batch " + node.batch);
function nodeInWords(name) {
  const [kind, id] = name.split(" ");
  return kind === "lot" ? t`lot ${id}` : t`batch ${id}`;
}
function depthsOf(names, edges) {
  const next = new Map(names.map((it) => [it, []])), waits = new Map(names.map((it) => [it, 0])), depth = new Map();
  for (const { from, to } of edges) {
    next.get(from).push(to);
    waits.set(to, waits.get(to) + 1);
  }
  const ready = names.filter((it) => !waits.get(it));
  for (const name of ready) {
    if (!depth.has(name)) depth.set(name, 0);
    for (const to of next.get(name)) {
      depth.set(to, Math.max(depth.get(to) || 0, depth.get(name) + 1));
      waits.set(to, waits.get(to) - 1);
      if (!waits.get(to)) ready.push(to);
    }
  }
  return depth;
}
function productsOf(nodes, edges) {
  const made = new Map();
  for (const { from, to } of edges) if (nodes.get(from).batch && !made.has(from)) made.set(from, nodes.get(to).def);
  return made;
}
function groupsOf(nodes, edges, here, isBack) {
  const depth = depthsOf([...nodes.keys()], edges), made = productsOf(nodes, edges), groups = new Map(), groupOf = new Map();
  for (const [name, node] of nodes) {
    const def = node.def || made.get(name) || "", side = name === here ? "here" : isBack(name) ? "back" : "forward";
    const key = `${side} ${node.lot ? "lots" : "batches"} ${def}`;
    if (!groups.has(key)) groups.set(key, { key, side, def, isOfLots: Boolean(node.lot), unit: node.unit, count: 0, stock: 0, held: 0, recalled: 0,
      first: name, depth: Infinity });
    const it = groups.get(key);
    it.count += 1;
    it.stock += node.stock || 0;
    it.held += node.held ? 1 : 0;
    it.recalled += node.recalled ? 1 : 0;
    it.depth = Math.min(it.depth, depth.get(name) ?? 0);
    groupOf.set(name, key);
  }
  const sums = new Map();
  let left = 0;
  for (const { from, to, amount } of edges) {
    const [one, other] = [groupOf.get(from), groupOf.get(to)];
    if (one === other) continue;
    if (groups.get(one).depth >= groups.get(other).depth) { left += 1; continue; }
    const key = `${one}>${other}`;
    sums.set(key, { from: one, to: other, amount: (sums.get(key)?.amount || 0) + amount });
  }
  return { groups, edges: [...sums.values()], left };
}
const sum = (all, of) => all.reduce((total, it) => total + BigInt(of(it)), 0n);
function placesOf(lots) {
  const all = new Map();
  for (const { place, stock } of lots.flatMap((it) => it.sublots)) if (stock) all.set(place, (all.get(place) || 0n) + BigInt(stock));
  return [...all].sort(([a], [b]) => (a < b ? -1 : 1)).map(([place, stock]) => ({ place, stock }));
}
function materialsOf(lots) {
  return [...new Set(lots.map((it) => it.def))].sort().map((def) => {
    const own = lots.filter((it) => it.def === def), entered = (kind) => sum(own, (it) => it.entered[kind]), left = (kind) => sum(own, (it) => it.left[kind]);
    const it = { def, unit: own[0].unit || "", count: own.length, received: entered("received"), produced: entered("produced"),
      others: entered("split") + entered("merged") - left("split") - left("merged"), consumed: left("consumed"), scrapped: left("scrapped"),
      stock: sum(own, (one) => one.stock), places: placesOf(own) };
    return { ...it, closes: it.received + it.produced + it.others === it.consumed + it.scrapped + it.stock };
  });
}
const flowsOf = ({ entered, left }) => ({ received: entered.received, produced: entered.produced, others: entered.split + entered.merged,
  consumed: left.consumed, scrapped: left.scrapped, passed: left.split + left.merged });
const wherever = (places) => places.map((it) => `${it.place || t`no place`}: ${it.stock}`).join("; ");
const rowsOfBalance = (lots) => [
  ...materialsOf(lots).map((it) => ({ ...it, passed: 0, where: wherever(it.places) })),
  ...lots.map((it) => ({ def: it.def, lot: it.lot, unit: it.unit || "", stock: it.stock, held: it.held, recalled: it.recalled, ...flowsOf(it),
    where: wherever(placesOf([it])) })),
];
const wordsIn = (text) => text.toLowerCase().match(/[\p{L}\p{N}]+/gu) || [];
function isNamed(name, typed) {
  const words = wordsIn(name), parts = wordsIn(typed);
  return parts.length > 0 && parts.every((part) => words.some((it) => it.startsWith(part)));
}
"##;

/// Its entity tag.
pub const VALUES_TAG: &str = "\"909a5284720745fdbacb3467e05bcd6e\"";
