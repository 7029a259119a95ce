//! The fixed texts of a page: what stands before its document, and what stands behind it.
//!
//! Between them stands the document, base64 in one line. `tests/page_hashes --write` writes the hashes of the style and of the script
//! into the policy of the head; without its hash neither works.

/// What a page begins with: its head with the policy that lets it load nothing, its style, its empty parts, and the start of the element
/// that holds its document.
pub const BEGINNING: &str = r##"<!DOCTYPE html>
<html lang="en">
<head>
<meta charset="utf-8">
<meta http-equiv="Content-Security-Policy" content="default-src 'none'; script-src 'sha256-BQCC+yxQKMhTh0od+wREsxBCe0f44jST0JIJA6OJyss='; style-src 'sha256-Vn8miyOW6uRj1wjjIYwaJ9sfWEJsXxVriEyxn+myUWY='; base-uri 'none'; form-action 'none'">
<meta name="viewport" content="width=device-width, initial-scale=1">
<title>A block, replayed</title>
<style>
:root {
  color-scheme: light dark;
  --paper: #fdfdfb; --ink: #1c2025; --soft: #565e68; --line: #d7dadd; --field: #f3f4f1;
  --good: #17663a; --bad: #a3201f; --link: #1c5190; --here: #fdf0c4;
}
@media (prefers-color-scheme: dark) {
  :root {
    --paper: #15181b; --ink: #e6e9ec; --soft: #a8b0ba; --line: #3b424a; --field: #1e2226;
    --good: #7fd3a1; --bad: #ffa39c; --link: #93c1ff; --here: #463b15;
  }
}
* { box-sizing: border-box; }
body {
  margin: 0 auto; max-width: 78rem; padding: 1.5rem 1rem 3rem; background: var(--paper); color: var(--ink);
  font: 1rem/1.5 system-ui, sans-serif; overflow-wrap: break-word;
}
h1 { margin: 0; font-size: 1.15rem; }
h2 { margin: 2.5rem 0 .5rem; font-size: 1.4rem; line-height: 1.25; }
p { margin: .5rem 0; max-width: 70ch; }
a { color: var(--link); }
header { display: flex; flex-wrap: wrap; gap: .25rem 2rem; justify-content: space-between; }
nav a { margin-right: 1rem; }
footer { margin-top: 3rem; border-top: 1px solid var(--line); }
.soft, footer, caption, thead th, dt { color: var(--soft); font-size: .9rem; }
code, .value { font: .875em/1.45 ui-monospace, "DejaVu Sans Mono", monospace; white-space: pre-wrap; overflow-wrap: anywhere; }
.verdict { margin: 1rem 0 2rem; padding: 1rem 1.25rem; border-left: .4rem solid var(--good); background: var(--field); }
.verdict h2 { margin: 0; font-size: .9rem; color: var(--soft); }
.verdict.wrong { border-color: var(--bad); }
#verdict { margin: 0 0 .5rem; max-width: none; font-size: 2rem; line-height: 1.2; font-weight: 650; color: var(--good); }
.wrong #verdict { color: var(--bad); }
#verdict .value { display: inline-block; font-weight: 400; color: var(--ink); font-size: 1rem; }
dl { display: grid; grid-template-columns: max-content minmax(0, 1fr); gap: .15rem 1rem; margin: .75rem 0; }
dd { margin: 0; grid-column: 2; }
.box { position: relative; overflow-x: auto; }
.cards { columns: 34rem; column-gap: 2.5rem; }
.cards > * { break-inside: avoid; margin-bottom: 1.25rem; }
.same .value { color: var(--soft); }
table { width: 100%; border-collapse: collapse; font-size: .9rem; }
caption { padding: .25rem 0; text-align: left; }
.cards caption { color: var(--ink); font-weight: 650; }
th, td { padding: .3rem .75rem .3rem 0; border-top: 1px solid var(--line); text-align: left; vertical-align: baseline; font-weight: 400; }
thead th { border: 0; }
ul, ol { margin: 0; padding: 0; list-style: none; }
.cards th, .cards td { min-width: 5.5rem; }
.state th.place { width: 5rem; }
.state > * { margin: 0 0 .75rem; }
.entries { min-width: 62rem; }
.entries .sender { width: 18rem; }
.steps { white-space: nowrap; }
.tag { display: inline-block; padding: 0 .4rem; border: 1px solid; border-radius: .2rem; font-size: .8rem; color: var(--link); }
.added .tag { color: var(--good); }
.removed .tag, .tag.wrong { color: var(--bad); }
.tag.wrong { font-weight: 650; }
button {
  padding: .3rem .8rem; border: 1px solid var(--soft); border-radius: .25rem; background: var(--paper); color: var(--ink);
  font: inherit; font-size: .9rem;
}
button:hover { background: var(--field); }
button[aria-disabled=true] { border-color: var(--line); color: var(--soft); }
:focus-visible { outline: .15rem solid var(--link); outline-offset: .15rem; }
details { border-top: 1px solid var(--line); }
summary { padding: .45rem 0; }
details[open] > :last-child { margin-bottom: 1.5rem; }
.stepper { padding: .75rem 1rem 1rem; border: 1px solid var(--line); }
.buttons { display: flex; flex-wrap: wrap; gap: .5rem; align-items: center; }
.columns { display: grid; grid-template-columns: minmax(0, 1fr) minmax(0, 1fr); gap: 1rem 2rem; align-items: start; }
.listing { position: relative; max-height: 34rem; overflow-y: auto; border: 1px solid var(--line); background: var(--field); }
.listing li { display: flex; align-items: baseline; gap: .75rem; padding: .05rem .5rem .05rem 1.6rem; }
.listing .count { flex: none; width: 2.5rem; text-align: right; font-size: .875rem; color: var(--soft); }
.listing .off { color: var(--soft); }
.listing [aria-current] { position: relative; background: var(--here); font-weight: 650; }
.listing [aria-current]::before { content: "\25B6"; position: absolute; left: .5rem; }
.hide { position: absolute; width: 1px; height: 1px; overflow: hidden; clip-path: inset(50%); white-space: nowrap; }
@media (max-width: 48rem) {
  .columns { display: block; }
  .listing { max-height: 16rem; }
  .verdict { padding: .75rem; }
  #verdict { font-size: 1.5rem; }
  dl { display: block; }
}
@media print {
  body { max-width: none; padding: 0; font-size: 10pt; }
  nav, button, .keys, .steps { display: none; }
  .listing { max-height: none; overflow: visible; }
  .entries { min-width: 0; }
  tr { break-inside: avoid; }
}
</style>
</head>
<body>
<header>
<h1 id="heading">A block, replayed</h1>
<nav aria-label="Parts of this page"><a href="#ledger">Ledger</a> <a href="#entries">Entries</a> <a href="#steps">Step by step</a></nav>
</header>
<noscript><p>This page needs its own script to show what is in it. The script loads and sends nothing.</p></noscript>
<p id="damaged" hidden>This page is damaged: its document cannot be read.</p>
<main id="main" hidden>
<section id="panel" class="verdict" aria-labelledby="verdict-heading">
<h2 id="verdict-heading">Verdict of the replay</h2>
<p id="verdict"></p>
<p id="meaning"></p>
<p id="goto"></p>
<dl id="facts"></dl>
</section>
<p class="soft">Values: digits alone are a uint. Bytes stand as text in quotation marks if all of them are printable ASCII, with
<code>\</code> before <code>"</code> and <code>\</code>. Else they stand in hexadecimal behind <code>0x</code>, 8 bytes also as a number
in parentheses.</p>
<section id="ledger" aria-labelledby="ledger-heading">
<h2 id="ledger-heading">The ledger before and after</h2>
<p>After is what the calls lead to, whatever the block says.</p>
<p id="next"></p>
<div id="changed" class="cards"></div>
</section>
<section id="entries" aria-labelledby="entries-heading">
<h2 id="entries-heading">Entries</h2>
<div id="calls" class="box" tabindex="0" role="region" aria-labelledby="entries-heading"></div>
</section>
<section id="steps" aria-labelledby="steps-heading">
<h2 id="steps-heading">Step by step</h2>
<p>Each entry has the other fields of its call, and its program, to be stepped through forwards and backwards.</p>
<div id="traces"></div>
</section>
</main>
<footer>
<p>Written by <code>avm_json page</code>. Anyone can write a page that looks like this one: to be sure, give the ledger and the block to
<code>avm replay</code> yourself.</p>
</footer>
<script type="text/plain" id="document">"##;

/// What a page ends with: the end of that element, and the script that fills the parts.
pub const END: &str = r##"</script>
<script>
"use strict";

const COMPLETIONS = ["NoOp", "OptIn", "CloseOut", "ClearState", "UpdateApplication", "DeleteApplication"];
const CHUNK = 200;
const at = id => document.getElementById(id);
let page;

// Numbers go up to 2^64 - 1, and JavaScript's own lose digits above 2^53. So each is put into quotation marks and read as a text. The
// expression goes from number to number and passes over strings.
function read(base64) {
  const raw = atob(base64), bytes = new Uint8Array(raw.length);
  for (let i = 0; i < raw.length; i++) bytes[i] = raw.charCodeAt(i);
  const text = new TextDecoder().decode(bytes);
  return JSON.parse(text.replace(/((?:"[^"\\]*(?:\\.[^"\\]*)*"|[^"\d])*)(\d+)/gy, '$1"$2"'));
}

// ---- elements and values

// Strangers wrote some of the texts, and none may become markup. So all come into the page here, as text nodes, or as a `textContent`.
function put(element, ...children) {
  element.textContent = "";
  for (const child of children.flat()) element.appendChild(typeof child === "object" ? child : document.createTextNode(child));
  return element;
}

function make(name, classes, ...children) {
  const made = document.createElement(name);
  if (classes) made.className = classes;
  return put(made, ...children);
}

function button(label, action, hidden = "") {
  const made = make("button", "", label, make("span", "hide", hidden));
  made.type = "button";
  made.addEventListener("click", action);
  return made;
}

function header(scope, classes, ...children) {
  const made = make("th", classes, ...children);
  made.scope = scope;
  return made;
}

function table(caption, columns, rows, classes = "") {
  const head = make("thead", "", make("tr", "", columns.map(one => header("col", "", one))));
  return make("table", classes, make("caption", "", caption), head, make("tbody", "", rows));
}

// A list of terms and what they are; one that is missing is left out.
function terms(pairs) {
  return pairs.filter(([, told]) => told !== undefined)
    .flatMap(([term, told]) => [make("dt", "", term), ...[told].flat().map(one => make("dd", "value", one))]);
}

function shownBytes(base64) {
  const raw = atob(base64);
  if (/^[ -~]*$/.test(raw)) return `"${raw.replace(/["\\]/g, "\\$&")}"`;
  const digits = "0x" + Array.from(raw, one => one.charCodeAt(0).toString(16).padStart(2, "0")).join("");
  return raw.length === 8 ? `${digits} (${BigInt(digits)})` : digits;
}

function shownValue(value) {
  return value.type === "1" ? shownBytes(value.bytes) : value.uint;
}

function shownSize(base64) {
  return `${atob(base64).length} bytes`;
}

function shownSchema(uints = "0", strings = "0") {
  return `uints: ${uints}, byte strings: ${strings}`;
}

function shownTime(seconds) {
  const time = new Date(Number(seconds) * 1000);
  return isNaN(time) ? seconds : `${seconds} (${time.toISOString().replace("T", " ").replace(".000Z", " UTC")})`;
}

// ---- the verdict

function meaning(words) {
  if (words[0] === "agrees") {
    return "Every call was made again. Each ends as the block says, and the ledger after has the digest that the block names.";
  }
  if (words[1] === "state") {
    return "Every call was made again. Each ends as the block says, but the ledger after has another digest than the block names.";
  }
  const said = page.shown.txns[words[2] - 1].outcome;
  return `The call of entry ${words[2]}, made again, ends so: ${words.slice(3).join(" ")}. But the block says: ${said}.`;
}

function drawVerdict() {
  const words = page.replay.split(" "), agrees = words[0] === "agrees", shown = page.shown;
  const told = agrees ? ["agrees ", make("span", "value", words[1])] : [page.replay];
  document.title = `Block of round ${shown.round}: ${words.slice(0, agrees ? 1 : 3).join(" ")}`;
  at("heading").textContent = `Block of round ${shown.round}, replayed`;
  put(at("verdict"), told);
  at("meaning").textContent = meaning(words);
  at("panel").classList.toggle("wrong", !agrees);
  if (words[1] === "outcome" && hasSteps(words[2])) {
    at("goto").append(button("Step through", () => openEntry(words[2]), ` entry ${words[2]}`));
  }
  at("facts").append(...terms([
    ["Ledger before", shown.digests.ledger],
    ["Ledger after, by the calls", page.after.digests.ledger],
    ["Ledger after, by the block", shown.digests.after],
    ["Block", shown.digests.block],
    ["Latest timestamp", shownTime(shown["latest-timestamp"])],
    ["Minimum fee", `${shown["min-fee"]} microalgos`],
    ["Minimum balance", `${shown["min-balance"]} microalgos`],
    ["Longest life of a call", `${shown["max-life"]} rounds`],
    ["TEAL versions", shown.profile === "2" ? "2" : "2 and 3"],
  ]));
}

// ---- the ledger

const PARAMS = [
  ["creator", params => params.creator],
  ["approval program", params => params["approval-program"], shownSize],
  ["clear state program", params => params["clear-state-program"], shownSize],
  ["global schema", params => schemaOf(params["global-state-schema"])],
  ["local schema", params => schemaOf(params["local-state-schema"])],
];

function schemaOf(schema) {
  return shownSchema(schema["num-uint"], schema["num-byte-slice"]);
}

// A row of what stands before and after, undefined where nothing does.
function compared(name, before, after, show = one => one) {
  const change = before === after ? "same" : before === undefined ? "added" : after === undefined ? "removed" : "changed";
  const cells = [before, after].map(one => one === undefined ? make("td", "soft", "none") : make("td", "value", show(one)));
  const tag = change === "same" ? "" : make("span", "tag", change);
  return make("tr", change, header("row", "value", name), cells, make("td", "", tag));
}

function comparedKeys(before = [], after = []) {
  const [old, now] = [before, after].map(state => new Map(state.map(({ key, value }) => [key, shownValue(value)])));
  return [...new Map([...old, ...now]).keys()].map(key => compared(shownBytes(key), old.get(key), now.get(key)));
}

function comparedApplication(id, before, after) {
  const [old, now] = [before, after].map(app => app && app.params);
  const rows = PARAMS.map(([name, get, show]) => compared(name, old && get(old), now && get(now), show));
  return drawPart([`Application ${id}`], [...rows, ...comparedKeys(old && old["global-state"], now && now["global-state"])]);
}

function comparedLocals(name, before, after) {
  const [address, id] = name.split(" "), isIn = state => state && "yes";
  const caption = [`Local state in application ${id} of `, make("span", "value", address)];
  return drawPart(caption, [compared("opted in", isIn(before), isIn(after)), ...comparedKeys(before, after)]);
}

function applicationsOf(ledger) {
  return new Map(ledger.apps.map(app => [app.id, app]));
}

function localsOf(ledger) {
  return new Map(ledger.accounts.flatMap(({ address, "apps-local-state": states }) =>
    states.map(state => [`${address} ${state.id}`, state["key-value"]])));
}

// The parts of two maps of a ledger: each is made into a table when it is drawn.
function parts(old, now, compare) {
  return [...new Map([...old, ...now]).keys()].map(name => ({ isSame: JSON.stringify(old.get(name)) === JSON.stringify(now.get(name)),
    draw: () => compare(name, old.get(name), now.get(name)) }));
}

function drawPart(caption, rows) {
  return make("div", "box", table(caption, ["Part", "Before", "After", "Change"], rows));
}

// Draws parts, some at a time.
function drawParts(box, all, from = 0) {
  box.append(...all.slice(from, from + CHUNK).map(part => part.draw()));
  const left = all.length - from - CHUNK;
  if (left > 0) {
    const more = button(`Show more: ${left} are left`, () => { more.remove(); drawParts(box, all, from + CHUNK); });
    box.append(more);
  }
}

function drawLedger() {
  const { shown, after } = page;
  const all = [...parts(applicationsOf(shown), applicationsOf(after), comparedApplication),
    ...parts(localsOf(shown), localsOf(after), comparedLocals)];
  const same = all.filter(part => part.isSame);
  const ids = [shown["next-id"], after["next-id"]];
  put(at("next"), `The next id: ${ids[0]} before, ${ids[1]} after. `, ids[0] === ids[1] ? "" : make("span", "tag", "changed"));
  drawParts(at("changed"), all.filter(part => !part.isSame));
  if (same.length > 0) {
    const box = make("div", "cards"), summary = make("summary", "", `Applications and local states without changes: ${same.length}`);
    const rest = make("details", "", summary, box);
    whenOpened(rest, () => drawParts(box, same));
    rest.open = same.length <= 8;
    at("ledger").append(rest);
  }
}

// ---- the entries

function whenOpened(details, draw) {
  details.addEventListener("toggle", () => { if (details.open) draw(); }, { once: true });
}

// The trace of an entry, where the page has it.
function traceOf(number) {
  if (page.trace === null) return undefined;
  if (page.entry !== "0") return page.entry === String(number) ? page.trace : undefined;
  return page.trace.txns[number - 1];
}

function hasSteps(number) {
  const trace = traceOf(number);
  return trace !== undefined && trace["app-call-trace"].length > 0;
}

function drawOutcome(index) {
  const found = page.outcomes[index], said = page.shown.txns[index].outcome;
  return found === said ? [found] : [found, " ", make("strong", "tag wrong", `the block says: ${said}`)];
}

function drawEntry({ txn, timestamp }, index, hasNotes) {
  const number = index + 1, cell = (classes, ...told) => make("td", classes, ...told);
  const given = (txn.apaa || []).map(one => make("li", "", shownBytes(one)));
  const steps = hasSteps(number) ? button("Step through", () => openEntry(number), ` entry ${number}`) : "";
  return make("tr", "", header("row", "", number), cell("", timestamp), cell("value sender", txn.snd),
    cell("", txn.apid || "0 (creates one)"), cell("", COMPLETIONS[txn.apan || 0]),
    cell("value", given.length ? make("ol", "", given) : ""),
    hasNotes ? cell("value", txn.note ? shownBytes(txn.note) : "") : [], cell("outcome", drawOutcome(index)), cell("steps", steps));
}

function drawEntries() {
  const { txns } = page.shown, hasNotes = txns.some(({ txn }) => txn.note);
  const columns = ["Entry", "Timestamp", "Sender", "Application", "Completion", "Arguments",
    ...hasNotes ? ["Note"] : [], "Outcome", "Steps"];
  const rows = txns.map((one, index) => drawEntry(one, index, hasNotes));
  at("calls").append(table(`The block's calls, by rising timestamp: ${txns.length}`, columns, rows, "entries"));
  at("traces").append(...txns.map((one, index) => drawDetails(one, index)));
  if (page.entry !== "0") at(`entry-${page.entry}`).open = true;
}

function otherFields(txn) {
  const size = code => code && shownSize(code), schema = one => one && shownSchema(one.nui, one.nbs);
  return make("dl", "", terms([
    ["Accounts", txn.apat], ["Foreign applications", txn.apfa],
    ["Approval program", size(txn.apap)], ["Clear state program", size(txn.apsu)],
    ["Global schema", schema(txn.apgs)], ["Local schema", schema(txn.apls)],
    ["Fee", `${txn.fee || 0} microalgos`], ["Valid rounds", `${txn.fv || 0} to ${txn.lv || 0}`],
    ["Lease", txn.lx && shownBytes(txn.lx)], ["Rekey to", txn.rekey],
  ]));
}

function drawDetails({ txn }, index) {
  const made = make("details", "", make("summary", "", `Entry ${index + 1}: `, drawOutcome(index)));
  made.id = `entry-${index + 1}`;
  whenOpened(made, () => made.append(otherFields(txn), drawTrace(index + 1)));
  return made;
}

function drawTrace(number) {
  if (hasSteps(number)) return drawStepper(traceOf(number), number);
  const ask = ["For that of this one: ", make("code", "", `avm_json page --entry ${number}`)];
  if (traceOf(number)) return make("p", "", `No program runs: ${page.outcomes[number - 1]}.`);
  if (page.entry === String(number)) return make("p", "", "The trace of this entry is too long for a page.");
  if (page.entry !== "0") return make("p", "", `This page has the trace of entry ${page.entry} alone. `, ask);
  return make("p", "", "This page has no traces, since with all it would be too long. ", ask);
}

function openEntry(number) {
  const details = at(`entry-${number}`), stepper = () => details.querySelector(".stepper");
  const focus = () => { details.scrollIntoView(); stepper().focus({ preventScroll: true }); };
  details.open = true;
  // What is opened is drawn when the event comes.
  if (stepper()) focus();
  else details.addEventListener("toggle", focus, { once: true });
}

// ---- a program, step by step

// The listing, with the number of the step at each line that was executed. Branches lead forwards alone, so no line is executed twice.
function drawListing({ disassembly, outcome, "recorded-outcome": said, "app-call-trace": states }) {
  const last = states.length - 1, counts = new Map(states.slice(0, last).map(({ line }, step) => [line, step + 1]));
  const decided = states[Math.max(0, last - 1)].line;
  return make("ol", "listing", disassembly.map((text, line) => {
    const tags = [], tag = told => tags.push(make("strong", "tag wrong", told)), isHere = decided === String(line);
    if (isHere && states[last].error) tag(`fault: ${states[last].error}`);
    if (isHere && outcome !== said) tag(`ends here: ${outcome}; the block says: ${said}`);
    const count = counts.get(String(line)) || "", isEnd = line === disassembly.length - 1;
    return make("li", count || isEnd ? "" : "off", make("span", "count", count),
      make("span", "", make("code", "", isEnd ? "(end)" : text), " ", tags));
  }));
}

function drawValues(caption, numbered) {
  if (numbered.length === 0) return make("p", "", `${caption}: empty`);
  return table(caption, ["Place", "Value"], numbered.map(([place, value]) =>
    make("tr", "", header("row", "place", place), make("td", "value", shownValue(value)))));
}

function shownChange({ action, bytes, uint }) {
  return action === "1" ? shownBytes(bytes) : action === "2" ? uint : "deleted";
}

function drawChanges(trace) {
  const cell = told => make("td", "value", told);
  const row = (where, { key, value }) => make("tr", "", header("row", "", where), cell(shownBytes(key)), cell(shownChange(value)));
  const rows = [...trace["global-delta"].map(one => row("global", one)),
    ...trace["local-deltas"].flatMap(({ address, delta }) => delta.map(one => row(["local, ", make("span", "value", address)], one)))];
  if (rows.length === 0) return make("p", "", "The program has changed no state.");
  const lost = trace.outcome === "approved" ? [] : make("p", "", "The ledger keeps none of these changes, since the call is not approved.");
  return make("div", "", table("What the program has changed", ["State", "Key", "Value"], rows), lost);
}

function placeOf({ disassembly, outcome, "app-call-trace": states }, step) {
  const { line, pc, error } = states[step], last = states.length - 1;
  const here = `at ${pc}: ${disassembly[line]}`;
  const told = error ? `Fault ${error} ${here}` : step === last ? `The program ends: ${outcome}` : `Next ${here}`;
  return [`Step ${step} of ${last}. `, make("span", "value", told)];
}

function drawState(trace, step) {
  const state = trace["app-call-trace"][step], isSet = ([, { type, uint }]) => type === "1" || uint !== "0";
  const ends = step === trace["app-call-trace"].length - 1;
  return [drawValues("Stack, top first", [...state.stack.entries()].reverse()),
    drawValues("Scratch space, places that are not the uint 0", [...state.scratch.entries()].filter(isSet)),
    ...ends ? [drawChanges(trace)] : []];
}

function drawStepper(trace, number) {
  const last = trace["app-call-trace"].length - 1, listing = drawListing(trace), state = make("div", "state");
  const told = make("p", "told"), box = make("div", "stepper");
  let now = 0;
  const moves = { Home: () => 0, ArrowLeft: () => Math.max(0, now - 1), ArrowRight: () => Math.min(last, now + 1), End: () => last };
  const buttons = Object.keys(moves).map((key, index) => button(["First", "Back", "Forward", "Last"][index], () => show(moves[key]())));

  function show(step) {
    now = step;
    put(told, placeOf(trace, now));
    put(state, drawState(trace, now));
    Object.values(moves).forEach((move, index) => buttons[index].setAttribute("aria-disabled", String(move() === now)));
    for (const one of listing.querySelectorAll("[aria-current]")) one.removeAttribute("aria-current");
    const line = listing.children[trace["app-call-trace"][now].line];
    line.setAttribute("aria-current", "step");
    listing.scrollTop = line.offsetTop - listing.clientHeight / 2;
  }

  box.addEventListener("keydown", event => {
    if (!Object.hasOwn(moves, event.key) || event.ctrlKey || event.altKey || event.metaKey || event.shiftKey) return;
    event.preventDefault();
    show(moves[event.key]());
  });
  box.tabIndex = 0;
  box.setAttribute("role", "group");
  box.setAttribute("aria-label", `Steps of entry ${number}`);
  told.setAttribute("aria-live", "polite");
  const cost = `${trace["app-call-messages"][0]}. Cost: ${trace["budget-consumed"]} of ${trace["budget-added"]}.`;
  box.append(make("div", "buttons", buttons, make("span", "soft keys", "Keys: left and right arrow, Home, End")), told,
    make("div", "columns", listing, state), make("p", "soft cost", `${cost} The numbers beside the lines count the steps.`));
  show(0);
  return box;
}

try {
  page = read(at("document").textContent);
  drawVerdict();
  drawLedger();
  drawEntries();
  at("main").hidden = false;
} catch (error) {
  at("damaged").hidden = false;
}
</script>
</body>
</html>
"##;
