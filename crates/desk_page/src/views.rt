//! The views of the page, as it is sent. make/page.py writes this file of what is in page/.

/// Its bytes: JavaScript in ASCII.
pub const VIEWS: &[u8] = br##""use strict";
const ORDER_STATES = ["open", "released", "finished", "cancelled"], WITHDRAWN = ["hidden", "shown"];
async function planner([id]) {
  const orderState = filterOf("orders", ORDER_STATES), isWithdrawnShown = filterOf("withdrawn", WITHDRAWN) === "shown";
  const orders = await desk.orders(orderState, wantedOrders(orderState));
  const approved = await desk.recipes("approved", want("recipes")), drafts = await desk.recipes("draft", want("recipes"));
  const withdrawn = isWithdrawnShown ? await desk.recipes("withdrawn", want("recipes")) : [];
  const one = id && (await desk.foundOrder(id)), wants = await wantsOf(orders, orderState === "open");
  return ["side",
    h("div", { class: "stack" }, desk.seq === 0 && firstSteps(), id && orderCard(id, one), listed(ordersCard(orders, orderState, approved, wants))),
    listed(h("div", { class: "stack" }, takeInCard(approved), recipesCard(approved, drafts, isWithdrawnShown && withdrawn)))];
}
const chosenOrders = new Map();
const MOST_AT_ONCE = 50;
const MOST_READ = 2000;
const isAsTheyCome = () => !textOf("recipe") && !textOf("text") && typed === null && listOrder(SORT_HEADS).isAsItComes;
const wantedOrders = (state) => (isAsTheyCome() ? want("orders " + state) : Math.max(MOST_READ, want("orders " + state)));
const SORT_HEADS = { due: "Due", order: "Order", priority: "#Priority", recipe: "Recipe", size: "#Size" };
function ordersCard(orders, orderState, approved, wants) {
  const recipes = new Map(approved.map((it) => [`${it.recipe}.${it.version}`, it])), recipeOf = (it) => recipes.get(`${it.recipe}.${it.version}`);
  const order = listOrder(SORT_HEADS), isFiltered = Boolean(textOf("recipe") || typedText());
  const meant = filteredOrders(orders, textOf("recipe"), typedText(), (it) => recipeOf(it)?.title || ""), sorted = sortedOrders(meant, order.by, order.isBack);
  const isOpen = orderState === "open", bar = chosenBar();
  for (const it of [...chosenOrders.keys()]) if (!isOpen || !orders.some((one) => one.order === it)) chosenOrders.delete(it);
  const rows = sorted.map((it) => orderRow(it, orderState, recipeOf(it), wants, () => drawChosenOrders(bar)));
  drawChosenOrders(bar);
  const late = MAY_BE_LATE.includes(orderState) ? orders.filter((it) => it.due < desk.today()).length : 0;
  const states = filterChoice(t`State of the orders`, "orders", ORDER_STATES);
  const csv = csvButton("orders", `orders-${orderState}`, async () => (await desk.orders(orderState, Infinity)).map((it) => ({ ...it, state: orderState })));
  const without = isFiltered && orders.length ? t`No order fits the filter.` : isOpen ? t`No order is open. Take an order file in, or one order by hand.`
    : t`No order is ${wordOf(orderState)}.`;
  const isAll = late === orders.length && orders.more, heads = ["Order", "Due", "#Priority", "Recipe", "#Size", ""];
  return card(t`Orders`, [late > 0 && pill(isAll ? t`${grouped(late)} and more late` : t`${grouped(late)} late`, "bad"), csv, states],
    orders.length > 0 && filterRow(orders, order), table(isOpen ? ["Choose", ...heads] : heads, rows, without, false, order.heads),
    more(orders, "orders " + orderState, firstOrders), isOpen && bar);
}
const firstOrders = (count) => (isAsTheyCome() ? t`The first ${count} by their due dates are shown, and there are more.`
  : t`The first ${count} by their due dates are looked through; those that fit are shown, and there are more.`);
const TYPING = 300;
let typed = null, typing;
const typedText = () => (typed === null ? textOf("text") : typed);
function typeText(value) {
  typed = value;
  clearTimeout(typing);
  typing = setTimeout(() => { typed = null; setText("text", value.trim(), true); }, TYPING);
}
function filterRow(orders, order) {
  const recipe = textOf("recipe"), ids = [...new Set([...orders.map((it) => it.recipe), ...(recipe ? [recipe] : [])])].sort();
  const option = (value, label, isOn) => h("option", { value, selected: isOn }, label);
  const text = h("input", { type: "search", id: "ordertext", maxlength: 60, placeholder: t`Filter by a text`, "aria-label": t`Filter the orders by a text`,
    autocomplete: "off", oninput: (event) => typeText(event.target.value) });
  text.value = typedText();
  return h("div", { class: "body row filter" }, text,
    h("select", { id: "orderrecipe", "aria-label": t`Filter the orders by a recipe`, onchange: (event) => setText("recipe", event.target.value) },
      option("", t`all recipes`, !recipe), ids.map((it) => option(it, it, it === recipe))),
    order.field(t`Sort the orders`),
    (recipe || typedText()) && button(t`No filter`, () => { typed = null; clearTimeout(typing); setText("text", ""); setText("recipe", ""); }));
}
function chosenBar() {
  const all = () => releaseSeveral([...chosenOrders.values()], (it) => chosenOrders.delete(it));
  return h("div", { class: "chosen" }, h("span", {}), button(t`Release\u2026`, all, "main", { "aria-label": t`Release the chosen orders` }),
    button(t`Choose none`, () => { chosenOrders.clear(); show(); }));
}
function drawChosenOrders(bar) {
  const count = chosenOrders.size, isTooMany = count > MOST_AT_ONCE;
  bar.hidden = !count;
  bar.firstChild.textContent = isTooMany ? t`At most ${MOST_AT_ONCE} orders are released at once.` : count === 1 ? t`1 order is chosen.` : t`${grouped(count)} orders are chosen.`;
  bar.children[1].disabled = isTooMany;
}
function orderBox(order, isOff, told) {
  const choose = (event) => {
    if (event.target.checked) chosenOrders.set(order.order, order); else chosenOrders.delete(order.order);
    told();
  };
  const name = t`Choose ${order.order} to be released`;
  return h("input", { type: "checkbox", "aria-label": name, checked: chosenOrders.has(order.order), disabled: isOff, onchange: choose });
}
function orderRow(order, orderState, recipe, wants, told) {
  const isOpen = orderState === "open", name = `${order.recipe} ${order.version}`;
  const title = recipe && recipe.title ? [recipe.title, " ", h("span", { class: "soft small" }, name)] : name;
  const mark = isOpen && !recipe && [" ", pill(t`not approved`, "warn")];
  const open = [button(t`Release`, () => release(order), "main"), button(t`Cancel^order`, () => cancelOrder(order), "bad")];
  const buttons = isOpen ? open : orderState !== "cancelled" && button(t`Batch`, () => showBatchOf(order.order));
  return row(order.order, [isOpen && cell(orderBox(order, !recipe, told)), idCell(link("planner/" + order.order, order.order)), cell(due(order, orderState)),
    h("td", { class: "num" }, order.priority),
    cell(title, mark, wants.lack(order)), h("td", { class: "num" }, h("span", {}, grouped(order.size), " ", wants.unit(order))),
    buttonsCell(buttons)].filter(Boolean));
}
const MAY_BE_LATE = ["open", "released"];
function due(order, state) {
  const today = desk.today(), mayBeLate = MAY_BE_LATE.includes(state);
  if (mayBeLate && order.due < today) return pill(t`${dated(order.due)} late`, "bad");
  return mayBeLate && order.due === today ? pill(t`${dated(order.due)} today`, "warn") : dated(order.due);
}
async function showBatchOf(id) {
  try { go("shift", (await desk.order(id)).batch); } catch (error) { notice("bad", error.message); }
}
function orderCard(id, order) {
  const away = button(t`Close this`, () => go("planner"));
  if (!order) return card(t`Order ${id}`, away, none(t`There is no such order.`));
  const isOpen = order.state === "open";
  return card(t`Order ${id}`, [pill(wordOf(order.state), isOpen ? "warn" : order.state === "finished" ? "good" : ""), away],
    facts(fact(t`Due`, due(order, order.state)), fact(t`Priority`, order.priority), fact(t`Recipe`, `${order.recipe} ${order.version}`),
      fact(t`Size`, grouped(order.size)), order.batch && fact(t`Batch`, batchLink(order.batch))),
    isOpen && h("div", { class: "body row" }, button(t`Release`, () => release(order), "main", { "aria-label": t`Release the order ${id}` }),
      button(t`Cancel^order`, () => cancelOrder(order), "bad", { "aria-label": t`Cancel the order ${id}` })));
}
function cancelOrder(order) {
  bookingForm(t`Cancel order ${order.order}?`, [say(t`A cancelled order stays cancelled.`), noteField(t`Why`)], t`Cancel the order`,
    (v, tell) => tell(t`Order ${order.order} cancelled`, noted({ do: "cancel_order", order: order.order }, v.note)), { isGrave: true });
}
const FILE_HINT = "An order file has comma-separated values, with the first line order,recipe,version,size,due,priority. "
  + "All of its orders are taken in, or none.";
function takeInCard(approved) {
  const file = h("input", { type: "file", accept: ".csv,text/csv", "aria-label": t`Order file`, id: "orderfile", class: "full" });
  const buttons = [button(t`Take the file in`, () => importFile(file), "main"), button(t`One order by hand`, () => oneOrder(approved))];
  return card(t`Take orders in`, null, h("div", { class: "body" }, h("p", { class: "soft small" }, t(FILE_HINT)), file,
    h("p", { class: "row" }, buttons)));
}
async function importFile(field) {
  const file = field.files[0];
  if (!file) { field.focus(); return notice("bad", t`Choose a file first.`); }
  if (file.size > 262144) return notice("bad", t(FILE_FAULTS.TooLong));
  const content = await file.text(), what = t`Order file ${file.name} taken in`;
  dropFilter("orders");
  return bookAtOnce(what, { file: content }, t`Take it in`);
}
function oneOrder(approved) {
  if (!approved.length) return notice("bad", t`No recipe is approved, so that no order can be taken in.`);
  const label = (it) => t`${it.title || it.recipe} (${it.recipe} ${it.version}), ${grouped(it.min)} to ${grouped(it.max)}`;
  const recipes = approved.map((it) => ({ value: `${it.recipe}.${it.version}`, label: label(it) }));
  const priorities = [9, 8, 7, 6, 5, 4, 3, 2, 1].map((it) => ({ value: it, label: it }));
  const fields = [
    say(t`An order can't be changed: a slip is cancelled, and taken in anew under another id.`),
    idField("order", t`New order`), selectField("recipe", t`Recipe`, recipes), { ...amountField(), name: "size", label: t`Size` },
    halfField("due", "date", t`Due`, { value: day(new Date(Date.now() + 7 * 86400e3)) }),
    halfField("priority", "select", t`Priority, 9 before 1`, { value: 5, options: priorities }),
  ];
  bookingForm(t`One order`, fields, t`Take it in`, (v, tell) => {
    const [recipe, version] = v.recipe.split(".");
    const order = { order: v.order, recipe, version: Number(version), size: v.size, due: v.due, priority: Number(v.priority) };
    return tell(t`Order ${v.order} taken in`, { do: "import_orders", orders: [order] });
  });
}
function recipesCard(approved, drafts, withdrawn) {
  const rows = [...drafts.map((it) => recipeRow(it, "draft")), ...approved.map((it) => recipeRow(it, "approved")),
    ...(withdrawn || []).map((it) => recipeRow(it, "withdrawn"))];
  const tools = [button(withdrawn ? t`Hide withdrawn` : t`Show withdrawn`, () => setFilter("withdrawn", WITHDRAWN, withdrawn ? "hidden" : "shown")),
    csvButton("recipes", "recipes", allRecipes), button(t`New recipe`, () => newRecipe())];
  return card(t`Recipes`, tools, table(["Recipe", ""], rows, t`There is no recipe yet. Write one: its materials have to be there.`),
    [approved, drafts, withdrawn || []].map((it) => more(it, "recipes")).find(Boolean));
}
async function allRecipes() {
  const all = [];
  for (const state of ["draft", "approved", "withdrawn"]) all.push(...(await desk.recipes(state, Infinity)).map((it) => ({ ...it, state })));
  return all;
}
function recipeRow(it, state) {
  const name = `${it.recipe} ${it.version}`;
  const approve = () => act(t`Recipe ${name} approved`, { do: "approve", recipe: it.recipe, version: it.version });
  const mark = state !== "approved" && [" ", pill(wordOf(state), state === "draft" ? "warn" : "")];
  const title = [h("b", {}, it.title || it.recipe), " ", h("span", { class: "soft small" }, name), mark];
  const sizes = h("div", { class: "soft small" }, t`${grouped(it.min)} to ${grouped(it.max)} of ${it.product}`);
  const buttons = [button(t`Lines`, () => showRecipe(it)), state === "draft" && button(t`Approve`, approve),
    state === "approved" && button(t`Withdraw`, () => withdraw(it), "bad")];
  return row(name, [cell(title, sizes), buttonsCell(...buttons)]);
}
async function showRecipe({ recipe, version }) {
  let it;
  try { it = await desk.recipe(recipe, version); } catch (error) { return notice("bad", error.message); }
  const amount = (line) => (line.qty ? `${grouped(line.qty)} ${line.unit}` : line.value || "");
  const rows = it.lines.map(withPath).map((line, k) => row("line " + k, [cell(wordOf(line.kind)), cell(line.def || line.name || line.path), cell(amount(line))]));
  const away = button(t`Close`, () => dialog.close()), again = button(t`New version from this one`, () => newVersion(it));
  const sizes = t`For ${grouped(it.base)} ${it.unit} of ${it.product}; orders of ${grouped(it.min)} to ${grouped(it.max)} ${it.unit}.`;
  openDialog(h("form", { method: "dialog" }, h("h2", { id: "title" }, `${it.title || it.recipe} (${it.recipe} ${it.version}), ${wordOf(it.state)}`),
    h("p", { class: "soft" }, sizes), table(["Kind", "What", "Amount or value"], rows, ""), h("div", { class: "end" }, again, away)), away);
}
async function newVersion(it) {
  let { version } = it;
  try { do version += 1; while (await desk.foundRecipe(it.recipe, version)); } catch (error) { return notice("bad", whyNot(error)); }
  newRecipe({ ...it, version, lines: linesText(it.lines) });
}
function withdraw(it) {
  bookingForm(t`Withdraw recipe ${it.recipe} ${it.version}?`,
    [say(t`No order of this version can be released any more. Batches that are released go on.`), noteField(t`Why`)], t`Withdraw`,
    (v, tell) => tell(t`Recipe ${it.recipe} ${it.version} withdrawn`,
      noted({ do: "withdraw", recipe: it.recipe, version: it.version }, v.note)), { isGrave: true });
}
function newRecipe(values = {}) {
  const chooser = h("div", { class: "lines", role: "group", "aria-label": t`Lines, one by one` });
  const fields = [
    say(t`A draft can't be changed: a slip wants another version.`), halfField("recipe", "id", t`Recipe`),
    halfField("version", "amount", t`Version, 1 to 999`, { value: 1, more: { pattern: "0*[1-9][0-9]{0,2}" } }),
    halfField("title", "text", t`Title`), halfField("product", "id", t`Product, a material`),
    { name: "base", kind: "amount", label: t`Base size, for which the lines are written` },
    halfField("min", "amount", t`Least size of an order`), halfField("max", "amount", t`Greatest size`), ownField(chooser),
    { name: "lines", kind: "lines", label: t`Lines`, hint: t(LINES_HINT), more: { placeholder: LINES_EXAMPLE } },
  ].map((it) => ({ ...it, value: values[it.name] ?? it.value }));
  bookingForm(values.recipe ? t`New version of recipe ${values.recipe}` : t`New recipe`, fields, t`Make a draft`, ({ lines: text, ...header }, tell) => {
    const [lines, wrong] = recipeLines(text);
    return wrong || tell(t`Recipe ${header.recipe} ${header.version} drafted`, { do: "add_recipe", ...header, lines });
  });
  chooseLines(chooser, dialog.querySelector("[name=lines]"), desk.named().catch(() => []));
}
const WHICH = ["open", "closed"];
let batchShown = null;
async function shift([id]) {
  const areClosedShown = filterOf("batches", WHICH) === "closed", unit = areClosedShown ? "" : textOf("unit"), list = areClosedShown ? "closed" : "batches";
  const order = listOrder(areClosedShown ? CLOSED_HEADS : OPEN_HEADS), read = await readBatches(areClosedShown, order);
  const batches = upTo(sortedBatches(read.filter((it) => !unit || it.phase_unit === unit), order), want(list), read.more);
  const shown = id || (!isNarrow() && batches[0] && batches[0].batch);
  if (!shown || batchShown?.batch !== shown) batchShown = null;
  const rows = batches.map((it) => batchRow(it, it.batch === shown, areClosedShown));
  const noneOpen = unit ? t`No batch has its next phase on ${unit}.` : t`No batch is open. The planner releases an order, which makes its batch.`;
  const all = h("div", { class: "batches" }, table(["Batch", "State", "#Due"], rows, areClosedShown ? t`No batch is closed.` : noneOpen, true,
    order.heads));
  const which = filterChoice(t`Which batches`, "batches", WHICH);
  const csv = csvButton("batches", `batches-${areClosedShown ? "closed" : "open"}`, async () => (await (areClosedShown ? desk.closedBatches(Infinity)
    : desk.batches(Infinity))).map((it) => ({ ...it, ...it.planned, closed: areClosedShown })));
  const without = card(t`No batch`, null, none(t`Once an order is released, its batch is started, booked and closed here.`));
  const one = shown ? await batchCards(shown) : desk.seq === 0 ? firstSteps() : !isNarrow() && without;
  return ["list", listed(card(t`Batches`, [csv, which], !areClosedShown && unitRow(read, unit), all, more(batches, list))),
    h("div", { class: "stack" }, one)];
}
const OPEN_HEADS = { due: "#Due", batch: "Batch", state: "State" }, CLOSED_HEADS = { batch: "Batch", state: "State", due: "#Due" }, MOST_READ_BATCHES = 2000;
function readBatches(areClosed, { isAsItComes }) {
  const wanted = want(areClosed ? "closed" : "batches"), many = Math.max(MOST_READ_BATCHES, wanted);
  return areClosed ? desk.closedBatches(isAsItComes ? wanted : many) : desk.batches(many);
}
function sortedBatches(batches, { by, isBack }) {
  if (by !== "due") return sortedBy(batches, by === "batch" ? (it) => it.batch : (it) => wordOf(it.state), isBack);
  return [...batches].sort((one, other) => (isBack ? -1 : 1) * byDueDate(one, other));
}
function unitRow(batches, unit) {
  const units = [...new Set([...batches.map((it) => it.phase_unit), unit].filter(Boolean))].sort(), option = (value, label) => h("option", { value,
    selected: value === unit }, label);
  if (!units.length) return null;
  return h("div", { class: "body row filter" }, h("select", { id: "batchunit", "aria-label": t`Filter the batches by the unit of their next phase`,
    onchange: (event) => setText("unit", event.target.value) }, option("", t`all units`), units.map((it) => option(it, t`next on ${it}`))));
}
function byDueDate({ planned: one }, { planned: other }) {
  if (!one || !other) return Boolean(other) - Boolean(one);
  return one.due < other.due ? -1 : one.due > other.due ? 1 : other.priority - one.priority;
}
function batchRow(batch, isShown, isClosed) {
  const { planned } = batch, small = (...text) => h("div", { class: "soft small" }, ...text);
  const next = batch.phase ? t`next ${batch.phase} on ${batch.phase_unit}, ${batch.next} of ${batch.phases}` : t`all phases done`;
  const cells = [idCell(batchLink(batch.batch), planned && h("div", { class: "under" }, planned.title || planned.product), small(batch.order)),
    cell(pill(wordOf(batch.state), TONES[batch.state]), small(next), small(t`since `, h("span", { class: "when" }, moment(batch.at)))),
    h("td", { class: "num" }, planned && h("span", {}, isClosed ? dated(planned.due) : dueMark(planned.due),
      small(`${grouped(planned.size)} ${planned.unit || ""}`)))];
  return row(batch.batch, cells, "shift/" + batch.batch, isShown);
}
function dueMark(due) {
  const today = desk.today();
  return [dated(due), due <= today && h("div", {}, pill(due < today ? t`late` : t`today`, due < today ? "bad" : "warn"))];
}
async function batchCards(id) {
  const batch = await desk.batch(id);
  batchShown = batch;
  return [progressCard(batch), await materialsCard(batch), bookingsCard(batch)];
}
function progressCard(batch) {
  const done = batch.next - 1, { phases, last } = procedureOf(batch.lines), next = phases[done];
  const path = phases.map((it, k) => [k ? " \u203a " : "", k === done ? h("b", {}, it.path) : it.path, k < done ? " \u2713" : ""]);
  const known = [fact(t`Order`, link("planner/" + batch.order, batch.order)), fact(t`Recipe`, `${batch.recipe} ${batch.version}`),
    fact(t`Size`, grouped(batch.size)), fact(t`Attempt`, batch.attempt), fact(t`Phases done`, t`${done} of ${batch.phases}`)];
  const tools = [pill(batch.closed ? t`closed` : wordOf(batch.state), batch.closed ? "" : TONES[batch.state]),
    link("quality/batch/" + batch.batch, t`Record and genealogy`), button(t`Sheet`, () => showSheet(batch.batch), null,
      { "aria-label": t`Sheet of ${batch.batch}` })];
  return card(t`Batch ${batch.batch}`, tools, h("div", { class: "body" }, h("div", { class: "facts" }, known), progressBar(done, batch.phases),
    h("p", { class: "soft small" }, path), parametersOf(next ? t`For ${next.path}` : t`After the phases`, next ? next.parameters : last),
    h("p", { class: "row" }, moves(batch, next))), procedureTable(phases, last, done));
}
function parametersOf(name, parameters) {
  if (!parameters.length) return null;
  return h("div", { class: "parameters", role: "group", "aria-label": t`Parameters: ${name}` }, h("span", { class: "soft small" }, name),
    h("div", { class: "facts" }, parameters.map((it) => fact(it.name, it.value))));
}
function procedureTable(phases, last, done) {
  if (!last.length && phases.every((it) => !it.parameters.length)) return null;
  const values = (parameters) => parameters.map((it) => h("div", {}, it.name, " ", h("b", {}, it.value)));
  const rows = phases.map((it, k) => row(`phase ${k + 1}`, [numberCell(k + 1), cell(values(it.parameters)), cell(it.path),
    cell(k < done ? t`done` : k === done ? t`next` : "")]));
  if (last.length) rows.push(row("after the phases", [cell(), cell(values(last)), cell(t`after the phases`), cell()]));
  return h("details", {}, h("summary", {}, t`All phases with their parameters`), table(["#No", "Parameters", "Phase", ""], rows, "", true));
}
function progressBar(done, phases) {
  const values = { "aria-valuemin": 0, "aria-valuemax": phases, "aria-valuenow": done };
  const bar = h("div", { class: "bar", role: "progressbar", "aria-label": t`Phases done`, ...values }, h("i"));
  bar.firstChild.style.width = `${(100 * done) / phases}%`;
  return bar;
}
const NEXT_PHASE = "nextphase";
function moves(batch, phase) {
  if (batch.closed) return t`This batch is closed. Nothing more is booked on it.`;
  const { done, ...words } = STATES[batch.state], id = batch.batch;
  const mayEnd = done && !(batch.state === "running" && phase);
  const steps = [
    batch.state === "running" && phase && { label: t`Phase ${phase.phase} done`, what: t`Phase ${phase.phase} of ${id} done`,
      fields: { do: "phase_done", batch: id, phase: batch.next }, look: "main", id: NEXT_PHASE },
    mayEnd && { label: t`Finish: ${wordOf(done)}`, what: t`Batch ${id} is ${wordOf(done)}`, fields: { do: "settle", batch: id }, look: "main" },
    ...Object.keys(words).filter((it) => !GRAVE[it] && it !== "hold").map((word) => ({ label: t(MOVES[word]), what: toldTo(id, word),
      fields: { do: "batch", batch: id, word }, look: QUICK.includes(word) ? "main" : null })),
  ].filter(Boolean);
  return [
    MAY_CLOSE.includes(batch.state) && button(t`Close^batch`, () => closeBatch(id), "main"),
    steps.map((it) => button(it.label, () => act(it.what, it.fields), it.look, it.id && { id: it.id })),
    Object.keys(words).filter((it) => GRAVE[it] || it === "hold").map((word) => button(t(MOVES[word]), () => move(id, word), GRAVE[word] && "bad")),
    steps.length > 0 && button(t`With a note\u2026`, () => withNote(id, steps))];
}
function withNote(id, steps) {
  const options = steps.map((it, k) => ({ value: k, label: it.label }));
  bookingForm(t`Batch ${id}, with a note`, [selectField("step", t`What`, options), textField("note", t`Note`, { required: true })], t`Book it`, (v, tell) => {
    const { what, fields } = steps[v.step];
    return tell(what, noted(fields, v.note));
  });
}
const toldTo = (id, word) => t`Batch ${id}: ${t(MOVES[word]).toLowerCase()}`;
const QUICK = ["start", "resume", "restart"];
const GRAVE = {
  stop: "The batch ends before its time. It can be reset, and begins anew as another attempt.",
  abort: "The batch is broken off. It can be reset, and begins anew as another attempt.",
  reset: "The batch begins anew, from its first phase, as another attempt. What was booked on it stays booked.",
};
function move(id, word) {
  const fields = { do: "batch", batch: id, word }, what = toldTo(id, word), label = t(MOVES[word]);
  bookingForm(t`${label} batch ${id}?`, [GRAVE[word] && say(t(GRAVE[word])), noteField(t`Why`)].filter(Boolean), label,
    (v, tell) => tell(what, noted(fields, v.note)), { isGrave: Boolean(GRAVE[word]) });
}
function closeBatch(id) {
  bookingForm(t`Close batch ${id}?`, [say(t`A closed batch takes no more bookings, and its order is finished.`), noteField()], t`Close it`,
    (v, tell) => tell(t`Batch ${id} closed`, noted({ do: "close_batch", batch: id }, v.note)));
}
const takesBookings = (batch) => batch.state !== "idle" && !batch.closed;
async function materialsCard(batch) {
  const isOpen = takesBookings(batch), lines = batch.lines.filter(isMaterial), free = batch.closed ? null : await freeOf(lines);
  const rows = lines.map((it) => materialRow(batch, it, isOpen, free));
  const all = isOpen && openInputs(lines).length > 0 && button(t`Book all inputs as asked`, () => bookInputs(batch.batch), "main",
    { "aria-label": t`Book all inputs as asked, ${batch.batch}` });
  return card(t`Materials`, batch.state === "idle" ? h("span", { class: "soft small" }, t`booked once the batch is started`) : all,
    table(["In or out", "Material", "#Asked", "#Booked", "#Left", ...(free ? ["#Free in stock"] : []), ""], rows, ""));
}
async function freeOf(lines) {
  const free = new Map();
  for (const { kind, def } of lines) {
    const stock = kind === "in" && await desk.stockOf(def);
    if (stock) free.set(def, stock.usable);
  }
  return free;
}
function freeCell(line, free) {
  const amount = line.kind === "in" ? free.get(line.def) : undefined;
  if (amount === undefined) return cell();
  return h("td", { class: "num" }, h("span", { class: amount < line.asked - line.booked ? "over" : null }, `${grouped(amount)} ${line.unit}`));
}
function materialRow(batch, line, isOpen, free) {
  const isInput = line.kind === "in";
  const book = isInput ? button(t`Consume`, () => consume(batch, line)) : button(t`Produce`, () => produce(batch, line));
  return row(`${line.kind} ${line.def}`, [cell(pill(wordOf(line.kind), isInput ? "" : "good")), idCell(line.def), numberCell(line.asked, line.unit),
    numberCell(line.booked, line.unit), excess(line) ? overCell(line) : numberCell(line.asked - line.booked, line.unit),
    free && freeCell(line, free), buttonsCell(isOpen && book)].filter(Boolean));
}
function bookingsCard(batch) {
  const unit = (def) => (batch.lines.find((it) => it.def === def) || {}).unit;
  const booked = [...batch.consumed.map((it) => ({ ...it, kind: "consumed" })),
    ...batch.produced.map((it) => ({ ...it, kind: "produced" }))].sort((a, b) => b.seq - a.seq);
  const rows = booked.map((it) => row(it.seq, [cell(wordOf(it.kind)), idCell(lotLink(it.lot, it.sub)), cell(it.def),
    numberCell(it.amount, unit(it.def)), numberCell(it.seq)]));
  return card(t`Bookings, the last first`, null, table(["What", "Lot", "Material", "#Amount", "#Number"], rows, t`Nothing is booked yet.`));
}
async function consume(batch, line, ...scan) {
  const { def, unit } = line;
  let parts;
  try { await desk.look(); parts = await partsToOffer(def); } catch (error) { return notice("bad", error.message); }
  if (parts.every((it) => it.barred) && !scan.length) return notice("bad",
    parts.length ? t`All ${def} in stock is on hold or recalled.` : t`There is no ${def} in stock.`);
  const left = Math.max(1, line.asked - line.booked);
  let offered = left;
  const change = (inputs, part) => {
    if (Number(inputs.amount.value) === offered) inputs.amount.value = offered = Math.min(part.stock, left);
  };
  const fields = [sayBooked(line), lotField({ def, unit, parts, change }), amountField(unit, left), noteField()];
  bookingForm(t`Consume ${def} in ${batch.batch}`, fields, t`Consume`, ({ from: { lot, sub }, amount, note }, tell) => tell(
    t`${grouped(amount)} ${unit} of ${lot} consumed`, noted({ do: "consume", batch: batch.batch, lot, sub, amount }, note)), overbooked(batch, line));
  if (scan.length) await openForm().scanned(...scan);
}
const overbooked = (batch, line) => ({ doubt: async ({ amount }) => {
  const lines = await desk.linesNow(batch.batch).catch(() => batch.lines);
  return doubtOf(lines.find((it) => it.kind === line.kind && it.def === line.def) || line, amount, line.booked);
} });
const sayBooked = (line) => say(t`Asked ${grouped(line.asked)} ${line.unit}, booked ${grouped(line.booked)} ${line.unit}.`);
async function produce(batch, line, ...scan) {
  const before = batch.produced.filter((it) => it.def === line.def).length;
  const fields = [sayBooked(line), newLotField("lot", t`New lot`, idOf(line.def, batch.batch, ...(before ? [before + 1] : []))),
    amountField(line.unit, Math.max(1, line.asked - line.booked)), placeField(), noteField()];
  bookingForm(t`Produce ${line.def} of ${batch.batch}`, fields, t`Produce`, (v, tell) => tell(
    t`${grouped(v.amount)} ${line.unit} as ${v.lot} produced`,
    noted({ do: "produce", batch: batch.batch, lot: v.lot, def: line.def, amount: v.amount, place: v.place }, v.note)), overbooked(batch, line));
  if (scan.length) await openForm().scanned(...scan);
}
async function scanAtBatch(code, isAgain) {
  if (!batchShown) return false;
  if (await desk.look()) await show();
  const batch = batchShown && await desk.batch(batchShown.batch);
  if (!batch) return false;
  const { lot: id, sub } = lotOf(code), lot = id && await desk.foundLot(id), lines = batch.lines.filter(isMaterial);
  if (!lot && id === batch.batch && sub !== null) return pointToPhase(batch, sub);
  if (!takesBookings(batch)) return false;
  if (lot) {
    const line = lines.find((it) => it.kind === "in" && it.def === lot.def);
    return line ? consume(batch, line, code, isAgain) : t`Lot ${id} is ${lot.def}, which batch ${batch.batch} doesn't consume.`;
  }
  const outputs = lines.filter((it) => it.kind === "out"), line = outputs.find((it) => it.booked < it.asked) || outputs[0];
  const isOther = !id || await desk.foundBatch(id) || await desk.foundOrder(id) || await desk.recall(id);
  return line && !isOther ? produce(batch, line, code, isAgain) : false;
}
const focusNextPhase = () => at(NEXT_PHASE)?.focus();
async function pointToPhase({ batch, next, phases, state }, number) {
  if (number < 1 || number > phases) return t`Batch ${batch} has no phase ${number}.`;
  if (number < next) return t`Phase ${number} of ${batch} is done already.`;
  if (number > next) return t`Phase ${next} of ${batch} is next, and not phase ${number}.`;
  if (state !== "running") return t`Batch ${batch} doesn't run.`;
  if (!at(NEXT_PHASE)) await show();
  at(NEXT_PHASE)?.focus();
  notice("", t`Phase ${number} of ${batch} is next. Nothing is booked yet: press its button, or Enter.`);
  return true;
}
const chosen = new Map();
let chosenOf = null;
async function warehouse([id, lotId]) {
  if (id === "place") return places(lotId);
  const classes = await desk.classes(), all = classes.flatMap((it) => it.stocks);
  const def = id || (!isNarrow() && all[0] && all[0].def);
  if (def !== chosenOf) chosen.clear();
  chosenOf = def;
  const side = listed(materialsSide(classes, def));
  const without = card(t`Lots`, null, none(t`There is no material yet.`));
  if (!def) return ["list", side, desk.seq === 0 ? firstSteps() : !all.length && without];
  const known = all.find((it) => it.def === def) || (await desk.stockOf(def));
  if (!known) return ["list", side, card(t`Lots`, null, none(t`There is no such material.`))];
  const order = listOrder(LOT_HEADS), wanted = want("lots " + def);
  const lots = await desk.stock(def, order.isAsItComes ? wanted : Math.max(MOST_SORTED, wanted));
  const others = Object.assign(lots.filter((it) => it.lot !== lotId), { more: lots.more });
  const lotsOf = lotsCard(known, others, order), one = await wholeLot(lotId);
  return ["list", side, h("div", { class: "stack" }, lotId && oneLotCard(lotId, one, known), lotId ? listed(lotsOf) : lotsOf)];
}
function materialsSide(classes, def) {
  const tools = [csvButton("materials", "materials", () => desk.materials()), button(t`New class`, newClass),
    classes.length > 0 && button(t`New material`, () => newMaterial(classes))];
  const without = none(t`There is no class yet.`);
  return card(t`Materials`, tools, byChoice("by material"), classes.length ? classes.map((it) => classTable(it, def)) : without, more(classes, "classes"));
}
function classTable({ id, name, stocks }, def) {
  const named = (it) => idCell(link("warehouse/" + it.def, it.def), it.name && h("div", { class: "under" }, it.name));
  const rows = stocks.map((it) => row(it.def, [named(it), numberCell(it.lots), freeCellOf(it)], "warehouse/" + it.def, it.def === def));
  return [h("h3", {}, name || id, name && [" ", h("span", { class: "soft small" }, id)]),
    h("div", { class: "stocks" }, table(["Material", "#Lots", "#Free in stock"], rows, t`No material is in this class.`, true)), more(stocks, "stocks " + id)];
}
function freeCellOf({ usable, held, recalled, unit }) {
  const barred = (amount, what, tone) => amount > 0 && h("div", {}, pill(`${grouped(amount)} ${unit} ${what}`, tone));
  return h("td", { class: "num" }, h("span", {}, `${grouped(usable)} ${unit}`, barred(held, t`on hold`, "warn"), barred(recalled, t`recalled`, "bad")));
}
function newClass() {
  bookingForm(t`New class`, [say(t`A class is a group of materials, such as RAW or GOODS. It can't be changed once it is made.`), idField("group", t`New class`),
    textField("name", t`Name`)], t`Make it`,
  (v, tell) => tell(t`Class ${v.group} made`, { do: "add_class", class: v.group, name: v.name }));
}
function newMaterial(classes) {
  bookingForm(t`New material`, [say(t`It can't be changed once it is made.`), idField("def", t`New material`), textField("name", t`Name`),
    selectField("group", t`Class`, classes.map((it) => ({ value: it.id, label: it.name ? `${it.id} (${it.name})` : it.id }))),
    textField("unit", t`Unit in which it is counted, such as kg or pcs`,
      { pattern: "[A-Za-z0-9]{1,8}", title: t`1 to 8 letters and digits`, required: true })], t`Make it`,
  (v, tell) => tell(t`Material ${v.def} made`, { do: "add_definition", def: v.def, class: v.group, name: v.name, unit: v.unit }));
}
const LOT_HEADS = { came: "Came", lot: "Lot", place: "Place", stock: "#Stock" }, MOST_SORTED = 2000;
const withState = (lot) => partsOfLot(lot).map((it) => ({ ...it, held: lot.held, recalled: lot.recalled }));
function lotsCard(known, lots, order) {
  const amount = (name, n) => fact(name, grouped(n), " ", known.unit);
  const bar = h("div", { class: "chosen", hidden: true }, h("span", {}), button(t`Merge\u2026`, () => merge(known), "main"),
    button(t`Choose none`, () => { chosen.clear(); show(); }));
  const told = () => drawChosen(bar);
  const parts = sortedBy(lots.flatMap(withState), partValue(order.by), order.isBack), name = "lots " + known.def;
  const shown = order.isAsItComes ? parts : upTo(parts, want(name), lots.more), rows = shown.map((it) => partRow(it, known, told));
  const further = order.isAsItComes ? more(lots, name, (count) => t`The first ${count} lots, the oldest first, are shown, and there are more.`)
    : more(shown, name, (count) => t`The first ${count} parts of the ${grouped(lots.length)} oldest lots are shown, and there are more.`);
  told();
  const title = h("span", {}, known.name || known.def, known.name && [" ", h("span", { class: "soft small" }, known.def)]);
  const without = t`There is no ${known.def} in stock. Receive a lot, or have one produced. A lot that is used up is found by its id.`;
  const csv = csvButton("lots", `lots-${known.def}`, async () => partsOfLots(await desk.stock(known.def, Infinity))
    .map((it) => ({ ...it, def: known.def, unit: known.unit })));
  return card(title, [csv, button(t`Receive a lot`, () => receive(known), "main")],
    facts(amount(t`Free`, known.usable), amount(t`On hold`, known.held), amount(t`Recalled`, known.recalled), fact(t`Lots with stock`, grouped(known.lots))),
    rows.length > 1 && h("div", { class: "body row filter" }, order.field(t`Sort the lots`)),
    table(PART_HEADS, rows, without, false, order.heads), further, bar);
}
function drawChosen(bar) {
  bar.hidden = !chosen.size;
  const isTooMany = chosen.size > MOST_PARTS;
  bar.firstChild.textContent = isTooMany ? t`A merge takes ${MOST_PARTS} parts at most.` : chosen.size === 1 ? t`1 part is chosen for a merge.` : t`${grouped(chosen.size)} parts are chosen for a merge.`;
  bar.children[1].disabled = isTooMany;
}
const PART_HEADS = ["Choose", "Lot", "#Part", "Came", "Place", "#Stock", ""];
function partRow(part, known, told) {
  const key = keyOfPart(part), isBarred = part.barred !== "";
  const marks = [part.held && [" ", pill(t`on hold`, "warn")], part.recalled && [" ", pill(t`recalled`, "bad")]];
  const buttons = [button(t`Label`, () => showLabels(part.lot, part.sub)), button(t`Move`, () => moveGoods(part, known)),
    button(t`Split`, () => split(part, known), null, { disabled: isBarred }), button(t`Scrap`, () => scrap(part, known), "bad")];
  return row(key, [cell(chooseBox(key, part, isBarred, told)), idCell(lotLink(part.lot), marks), h("td", { class: "num" }, part.sub),
    cameCell(part.at), cell(part.place || h("span", { class: "soft" }, t`no place`)), numberCell(part.stock, known.unit), buttonsCell(buttons)]);
}
function chooseBox(key, part, isBarred, told) {
  if (chosen.has(key)) chosen.set(key, part);
  const choose = (event) => {
    if (event.target.checked) chosen.set(key, part);
    else chosen.delete(key);
    told();
  };
  const name = t`Choose ${key} for a merge`;
  return h("input", { type: "checkbox", "aria-label": name, checked: chosen.has(key), disabled: isBarred, onchange: choose });
}
function oneLotCard(id, lot, known) {
  const away = button(t`Close this`, () => go("warehouse", known.def));
  if (!lot) return card(t`Lot ${id}`, away, none(t`There is no such lot.`));
  return card(t`Lot ${id}`, away, table(PART_HEADS, withState(lot).map((it) => partRow(it, known, show)), t`Nothing is left of it.`));
}
function receive({ def, unit }) {
  bookingForm(t`Receive ${def}`, [newLotField("lot", t`Scan or type the new lot`), amountField(unit), placeField(), noteField()], t`Receive`,
    (v, tell) => tell(t`${grouped(v.amount)} ${unit} as ${v.lot} received`,
      noted({ do: "receive", lot: v.lot, def, amount: v.amount, place: v.place }, v.note)));
}
const MOST_PARTS = 16;
function merge(known, values = {}) {
  const parts = [...chosen.values()], { def, unit } = known;
  const label = (it) => t`Of ${placeOfPart(it)}${cameInWords(it)}, ${unit}`;
  const amounts = parts.map((it) => ({ ...amountField(unit, it.stock), name: keyOfPart(it), label: label(it) }));
  const take = async (v, tell) => {
    const taken = parts.map((it) => ({ lot: it.lot, sub: it.sub, amount: v[keyOfPart(it)] }));
    const wrong = await tell(t`Merged as ${v.new}`, noted({ do: "merge", new: v.new, place: v.place, parts: taken }, v.note));
    if (!wrong) { chosen.clear(); show(); }
    return wrong;
  };
  const change = (inputs, part) => {
    const key = keyOfPart(part);
    if (inputs[key]) return inputs[key];
    if (chosen.size >= MOST_PARTS) return openForm().refuse(t`A merge takes ${MOST_PARTS} parts at most.`);
    chosen.set(key, part);
    show();
    return merge(known, Object.fromEntries(Object.entries(inputs).map(([name, it]) => [name, it.value])));
  };
  const fields = [lotField({ def, unit, change, isOptional: true }), ...amounts, newLotField("new", t`New lot`), placeField(), noteField()];
  for (const it of fields) if (it.kind !== "lot" && values[it.name] !== undefined) it.value = values[it.name];
  bookingForm(t`Merge ${counted(parts.length, "part", "parts")}`, fields, t`Merge`, take);
}
const WHICH_RECALLS = ["open", "lifted"];
async function quality([kind, id]) {
  const areLiftedShown = filterOf("recalls", WHICH_RECALLS) === "lifted";
  const recalls = areLiftedShown ? await desk.liftedRecalls(want("lifted")) : await desk.recalls(want("recalls"));
  const side = listed(h("div", { class: "stack" }, recallsCard(recalls, areLiftedShown), holdsCard(await desk.allHolds(want("all holds")))));
  const shown = { lot: lotCards, batch: batchRecordCards, recall: (it) => recallCards(it, recalls) }[kind];
  const hint = none(t`Find a lot, a batch or a recall by its id: at the top, or with `, h("kbd", {}, "/"),
    t`. Its holds, genealogy, ledger and record are shown here.`);
  if (!id || !shown) return ["list", side, desk.seq === 0 ? firstSteps()
    : h("div", { class: "stack" }, card(t`A lot, a batch or a recall`, null, hint), commandsCard(await desk.lastCommands(PAGE)))];
  return ["list", side, h("div", { class: "stack" }, await shown(id))];
}
function commandsCard(commands) {
  const rows = commands.map((it) => row(it.seq, [numberCell(it.seq), momentCell(it.at), cell(it.by), cell(commandWord(it.do)), cell(it.note), cell(it.ref)]));
  const csv = csvButton("commands", "commands", () => desk.commands(Infinity));
  return card(t`The last commands with references`, commands.length > 0 && csv, table(["#Number", "When", "By", "What", "Note", "Reference"], rows, t`None.`));
}
function holdsCard(holds) {
  const told = (it) => [it.hold, h("div", { class: "soft small" }, `${it.by}, ${moment(it.at)}`), it.note && h("div", { class: "small" }, it.note)];
  const rows = holds.map((it) => row(`${it.lot}.${it.hold}`, [idCell(lotLink(it.lot)), cell(told(it)),
    buttonsCell(button(t`Take the hold off`, () => unhold(it.lot, it.hold)))]));
  const csv = csvButton("holds", "holds", () => desk.allHolds(Infinity));
  return card(t`On hold`, csv, table(["Lot", "Hold", ""], rows, t`No lot is on hold.`), more(holds, "all holds"));
}
function recallsCard(recalls, areLiftedShown) {
  const told = (it) => [h("b", {}, link("quality/recall/" + it.recall, it.recall)), h("div", { class: "soft small" }, `${it.by}, ${moment(it.at)}`),
    it.note && h("div", { class: "small" }, it.note)];
  const lifted = (it) => cell(`${it.lift.by}, ${moment(it.lift.at)}`, it.lift.note && h("div", { class: "small" }, it.lift.note));
  const rows = recalls.map((it) => row(it.recall, [cell(told(it)), idCell(lotLink(it.lot)),
    it.lift ? lifted(it) : buttonsCell(button(t`Lift`, () => lift(it)))]));
  const state = areLiftedShown ? "lifted" : "open", all = () => (areLiftedShown ? desk.liftedRecalls(Infinity) : desk.recalls(Infinity));
  const tools = [csvButton("recalls", `recalls-${state}`, all), filterChoice(t`Which recalls`, "recalls", WHICH_RECALLS)];
  return card(t`Recalls`, tools, table(["Recall", "Lot", areLiftedShown ? "Lifted" : ""], rows, areLiftedShown ? t`No recall is lifted.` : t`No recall is open.`),
    more(recalls, areLiftedShown ? "lifted" : "recalls"));
}
async function lotCards(id) {
  const lot = await desk.lot(id), holds = await desk.holds(id, want("holds " + id));
  const around = { back: await desk.back("lots", id), forward: await desk.forward("lots", id) };
  const stands = await desk.stands("lots", id), ledger = await desk.movements(id, want("movements " + id));
  const self = around.back.nodes.find((it) => it.lot === id);
  return [lotCard(lot, self, holds, around.forward), genealogyCard(around, "lot " + id), standsCard(`lot ${id}`, stands, around.forward.nodes),
    ledgerCard(id, ledger, self.unit)];
}
function lotCard(lot, self, holds, forward) {
  const rows = holds.map((it) => row(it.hold, [idCell(it.hold), momentCell(it.at), cell(it.by), cell(it.note),
    buttonsCell(button(t`Take the hold off`, () => unhold(lot.lot, it.hold)))]));
  const tools = [lot.held && pill(t`on hold`, "warn"), self.recalled && pill(t`recalled`, "bad"), button(t`Label`, () => showLabels(lot.lot)),
    historyButton(lot.lot, t`lot ${lot.lot}`), balanceButton("lots", lot.lot, t`lot ${lot.lot}`), button(t`Hold^verb`, () => hold(lot.lot)), button(t`Recall^verb`, () => recall(lot.lot, forward), "bad")];
  return card(t`Lot ${lot.lot}`, tools,
    facts(fact(t`Material`, link("warehouse/" + lot.def, lot.def)), fact(t`Stock`, grouped(lot.stock), " ", self.unit),
      lot.sublots.filter((it) => it.stock || lot.sublots.length === 1).map((it) =>
        fact(t`Part ${it.no} at ${it.place || t`no place`}`, grouped(it.stock), " ", self.unit))),
    table(["Hold", "Since", "By", "Why", ""], rows, t`No hold is on it.`), more(holds, "holds " + lot.lot));
}
function ledgerCard(id, ledger, unit) {
  const to = (it) => (it.to ? `${it.to}/${it.to_sub}` : it.batch ? batchLink(it.batch) : "");
  const cells = (it) => [momentCell(it.at), cell(it.by), cell(wordOf(it.kind)), numberCell(it.amount, unit), cell(`${it.lot}/${it.sub}`), cell(to(it)),
    cell(it.note)];
  const rows = ledger.map((it) => row(`${it.seq}.${it.line}`, cells(it)));
  const csv = csvButton("ledger", `ledger-${id}`, async () => (await desk.movements(id, Infinity)).map((one) => ({ ...one, unit })));
  return card(t`Ledger`, csv, table(["When", "By", "What", "#Amount", "Part", "To or of", "Note"], rows, ""),
    more(ledger, "movements " + id));
}
function hold(id) {
  bookingForm(t`Hold lot ${id}`, [say(t`It can't be consumed, split or merged until the hold is taken off.`),
    idField("hold", t`New hold`, idOf("H", stampWord())), whyField()], t`Hold^verb`,
    (v, tell) => tell(t`Lot ${id} is on hold`, { do: "hold", lot: id, hold: v.hold, note: v.note }));
}
function unhold(id, name) {
  bookingForm(t`Take hold ${name} off lot ${id}?`, [noteField(t`Why`)], t`Take it off`,
    (v, tell) => tell(t`Hold ${name} is taken off ${id}`, noted({ do: "unhold", lot: id, hold: name }, v.note)));
}
function recall(id, forward) {
  const lots = forward.nodes.filter((it) => it.lot).length, batches = forward.nodes.length - lots;
  const reaches = t`It reaches ${counted(lots, "lot", "lots")} and ${counted(batches, "batch", "batches")} now, and all that comes of them.`;
  const fields = [say(`${reaches} ${t`No lot of these can be consumed, split or merged until the recall is lifted.`}`),
    idField("recall", t`New recall`, idOf("RC", stampWord())), whyField()];
  bookingForm(t`Recall lot ${id}`, fields, t`Recall^verb`,
    (v, tell) => tell(t`Lot ${id} is recalled`, { do: "recall", recall: v.recall, lot: id, note: v.note }), { isGrave: true });
}
function lift(it) {
  const text = t`Lot ${it.lot} and all that came of it is free again, but for other recalls and holds. A lifted recall stays lifted.`;
  bookingForm(t`Lift recall ${it.recall}?`, [say(text), noteField(t`Why`)], t`Lift`,
    (v, tell) => tell(t`Recall ${it.recall} is lifted`, noted({ do: "lift", recall: it.recall }, v.note)));
}
async function recallCards(id, recalls) {
  const it = await desk.recall(id), open = recalls.find((other) => other.recall === id);
  if (!it) return [card(t`Recall ${id}`, null, none(t`There is no such recall.`))];
  const { nodes } = await desk.forward("lots", it.lot), stands = standsCard(`recall ${id}`, await desk.stands("lots", it.lot), nodes);
  const print = [historyButton(id, t`recall ${id}`), balanceButton("lots", it.lot, t`recall ${id}`), button(t`Print`, () => globalThis.print())];
  if (it.state === "lifted") return [card(t`Recall ${id}`, [pill(t`lifted`), print], printedLine(), facts(fact(t`Lot`, lotLink(it.lot))),
    none(t`It is lifted, and reaches nothing any more.`)), stands];
  const since = open ? [fact(t`Since`, moment(open.at)), fact(t`By`, open.by), open.note && fact(t`Why`, open.note)] : [];
  const lots = it.nodes.filter((node) => node.lot), batches = it.nodes.filter((node) => node.batch);
  const links = (kind, ids, named) => h("div", { class: "body row" }, ids.map((one) => link(`quality/${kind}/${one}`, one, named && { "aria-label": named(one) })));
  return [
    card(t`Recall ${id}`, [pill(t`open`, "bad"), print, button(t`Lift`, () => lift(it), null, { "aria-label": t`Lift the recall ${id}` })], printedLine(),
      facts(fact(t`Lot`, lotLink(it.lot)), since, fact(t`Reaches`, `${counted(lots.length, "lot", "lots")}, ${counted(batches.length, "batch", "batches")}`))),
    await runningCard(batches), stands,
    card(t`${counted(lots.length, "lot", "lots")} reached`, null, links("lot", lots.map((node) => node.lot))),
    card(t`${counted(batches.length, "batch", "batches")} reached`, null, links("batch", batches.map((node) => node.batch),
      (one) => t`${one}: record and genealogy`)),
  ];
}
async function batchRecordCards(id) {
  const batch = { ...(await desk.batch(id)), record: await desk.record(id) };
  const around = { back: await desk.back("batches", id), forward: await desk.forward("batches", id) };
  return [recordCard(batch, [historyButton(id, t`batch ${id}`), balanceButton("batches", id, t`batch ${id}`)]), genealogyCard(around, "batch " + id)];
}
const MOST_NAMED = 10;
async function find(code) {
  const { lot: id } = lotOf(code);
  if (id && await showFound(id)) return true;
  const where = await placeNamed(code);
  if (where) { location.hash = `#warehouse/place/${encodeURIComponent(where)}`; return true; }
  return miss(id ? t`There is no lot, no batch, no order, no recall, no material, no recipe and no place ${id}.` : t`An id has ${t(ID_RULE)}.`);
}
function miss(why) { notice("bad", why); return false; }
async function findTyped(typed) {
  const { lot: id } = lotOf(typed);
  if (id && await showFound(id)) return;
  const named = await namedSo(typed);
  if (named.length === 1) go("warehouse", named[0].def);
  else if (named.length > 1) miss(t`Several materials are named so: ${named.slice(0, MOST_NAMED).map((it) => it.def).join(", ")}${named.length > MOST_NAMED ? " .." : ""}`);
  else await find(typed);
}
async function showFound(id) {
  const [name] = place();
  const lot = await desk.foundLot(id);
  const where = lot ? (name === "warehouse" ? ["warehouse", lot.def, id] : ["quality", "lot", id])
    : await desk.foundBatch(id) ? (name === "shift" ? ["shift", id] : ["quality", "batch", id])
      : await desk.foundOrder(id) ? ["planner", id] : await desk.recall(id) ? ["quality", "recall", id]
        : await desk.definition(id) ? ["warehouse", id] : null;
  if (where) go(...where);
  else if ((await desk.find(id)).recipes.includes(id)) location.hash = `#planner?recipe=${id}`;
  else return false;
  return true;
}
at("find").addEventListener("input", offerBegun);
at("finder").addEventListener("submit", async (event) => {
  event.preventDefault();
  notice();
  try { await findTyped(at("find").value); } catch (error) { miss(whyNot(error)); }
});
listenToScans(async (code, isAgain, from) => {
  if (openForm()) return openForm().scanned(code, isAgain, from);
  notice();
  try {
    const isOfBatch = !dialog.open && place()[0] === "shift" && from !== at("find") && await scanAtBatch(code, isAgain);
    if (typeof isOfBatch === "string") { miss(isOfBatch); tone(); } else if (isOfBatch === false) await findScanned(code);
  } catch (error) { miss(whyNot(error)); tone(); }
});
async function findScanned(code) {
  if (dialog.open) dialog.close();
  if (!(await find(code))) tone();
}
at("help").addEventListener("click", help);
dialog.addEventListener("cancel", (event) => { if (sending) event.preventDefault(); });
dialog.addEventListener("close", () => {
  if (dialog.open) return;
  const isLost = document.activeElement === document.body || dialog.contains(document.activeElement);
  dialog.replaceChildren();
  if (isLost) focusAgain(focusBehind);
  if (view.dataset.ready && !view.dataset.ready.endsWith(` ${desk.seq}`)) show();
});
addEventListener("keydown", (event) => {
  if (event.ctrlKey || event.altKey || event.metaKey || dialog.open) return;
  if (event.key === "Escape" && document.activeElement === at("find")) return view.focus();
  if (event.key === "Escape" && place()[0] === "board") return go("today");
  if (isWriting()) return;
  const role = /^[0-4]$/.test(event.key) && Object.keys(VIEWS)[event.key];
  const act = role ? () => go(role) : { "/": () => at("find").select(), "?": help, r: show, n: focusNextPhase }[event.key];
  if (!act) return;
  event.preventDefault();
  onceAlone(act);
});
Object.assign(VIEWS, { today, planner, shift, warehouse, quality, board });
operator.value = kept("operator", "");
operator.addEventListener("input", () => operator.readOnly || keep("operator", operator.value));
operator.addEventListener("change", () => nameOperator(operator.value));
operator.addEventListener("keydown", (event) => { if (event.key === "Enter") view.focus(); });
const TURN = 20, MINUTE = 60;
const isOld = () => isDayOver() || (["today", "board"].includes(place()[0]) && isDrawnBefore(MINUTE));
async function lookAgain() {
  if (document.hidden || sending || dialog.open) return;
  drawWaiting();
  try {
    const isNew = await desk.look(), areChosen = { planner: chosenOrders, warehouse: chosen }[place()[0]]?.size > 0;
    const isAtWork = areChosen || (isWriting() && view.contains(document.activeElement));
    if (isNew && isAtWork) drawNew();
    else if (isNew || (isOld() && !isAtWork) || at("stand").textContent === t`no answer`) show();
  } catch { tellStatus("bad", t`no answer`); }
}
const drawNew = () => tellStatus("warn", t`there are new bookings: `, button(t`Look again`, () => show()));
setInterval(lookAgain, TURN * 1000);
addEventListener("visibilitychange", lookAgain);
addEventListener("storage", drawWaiting);
addEventListener("desk-named", drawWaiting);
addEventListener("hashchange", () => { if (dialog.open && !sending) dialog.close(); show(); });
async function begin() {
  const { name, language } = await desk.presented();
  await loadTexts(language);
  present(name);
  drawWaiting();
  try { nameByLogin(await desk.loggedIn()); } catch (error) { notice("bad", whyNot(error)); }
  show();
}
begin();
"##;

/// Its entity tag.
pub const VIEWS_TAG: &str = "\"7744a7b45f963d39e93cc73fea1b63ad\"";
