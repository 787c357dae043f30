//! JavaScript of a web page of a history, which isn't proved: it draws the columns in sight.

pub(crate) const DRAWING: &str =
    "// Shows a history: its picture, as far as it is in sight, and what is so behind one of its steps.
const SVG = 'http://www.w3.org/2000/svg';
const ROW = 24;
const GAP = 14;
const WIDTHS = [3, 200];
// So many blocks are listed at a time.
const LISTED = 256;

let past = null;
let lanes = [];
let found = [];
const view = { step: 0, first: 1, width: 88, drawing: false };

function at(id) {
  return document.getElementById(id);
}

// ---- the picture

// Adds a shape to an SVG, with a text of its own.
function add(svg, name, attributes, text) {
  const shape = document.createElementNS(SVG, name);
  for (const [key, value] of Object.entries(attributes)) shape.setAttribute(key, value);
  if (text !== undefined) shape.textContent = text;
  svg.append(shape);
  return shape;
}

function addTitle(shape, text) {
  add(shape, 'title', {}, text);
}

// Where the middle of a column is; what never ends, ends beyond the picture.
function middle(step) {
  return Math.max(-50, Math.min((step - view.first + 0.5) * view.width, at('picture').clientWidth + 50));
}

// A box from one step to another, in a row; the words that stand in it as far as there is room.
function addBox(svg, kind, top, from, to, words, title, height = ROW - 6) {
  const [left, right] = [middle(from), middle(Math.min(to, past.count + 1))];
  const box = add(svg, 'rect', { class: kind, x: left, y: top, width: Math.max(2, right - left), height, rx: 4 });
  if (title) addTitle(box, title);
  const room = Math.floor((right - Math.max(left, 0) - 8) / 7);
  if (words && room > 3) add(svg, 'text', { x: Math.max(left, 0) + 5, y: top + height / 2 + 4 }, words.slice(0, room));
}

function makeLanes() {
  const made = [];
  past.submissions.forEach((queue, i) => {
    if (queue.entries.length) made.push({ name: 'submission ' + (i + 1), rows: queue.rows.length, queue: i + 1 });
  });
  past.completions.forEach((queue, i) => {
    if (queue.entries.length) made.push({ name: 'completion ' + (i + 1), rows: queue.rows.length, waits: i });
  });
  if (past.tickets.size) made.push({ name: 'tickets', rows: past.flying.rows.length, tickets: true });
  const slots = [...past.slots.keys()].sort((a, b) => a - b);
  for (const lba of slots) made.push({ name: 'slot ' + lba, rows: 2, slot: lba });
  let top = GAP;
  for (const lane of made) {
    lane.top = top;
    top += lane.rows * ROW + GAP;
  }
  return made;
}

function bottom() {
  const last = lanes[lanes.length - 1];
  return last ? last.top + last.rows * ROW + GAP : ROW;
}

// Whether a row is in sight.
function isInSight(top) {
  const box = at('lanes');
  return top > box.scrollTop - 2 * ROW && top < box.scrollTop + box.clientHeight + 2 * ROW;
}

function drawEntry(svg, top, entry) {
  const completion = entry.status ? ', ended with ' + entry.status : '';
  addBox(svg, 'bar', top, entry.published, entry.reaped, '', entry.title + completion);
  if (entry.fetched <= past.count) {
    const ticket = 'ticket ' + entry.ticket.id;
    addBox(svg, 'band', top, entry.fetched, entry.posted, '', entry.title + ', ' + ticket + completion);
  }
  if (entry.posted <= past.count) {
    const kind = entry.good ? 'good' : 'failed';
    addBox(svg, kind, top, entry.posted, entry.reaped, entry.status, entry.title + completion);
  }
  const [left, right] = [Math.max(0, middle(entry.published)), middle(Math.min(entry.posted, past.count + 1))];
  const room = Math.floor((right - left - 10) / 7);
  if (room > 3) add(svg, 'text', { class: 'label', x: left + 5, y: top + 13 }, entry.title.slice(0, room));
}

function drawTicket(svg, top, ticket, last) {
  const title = 'ticket ' + ticket.id + ' of queue ' + ticket.queue;
  addBox(svg, 'band', top, ticket.fetched, ticket.ended, 'ticket ' + ticket.id, title);
  const units = ticket.units;
  for (let i = Math.max(0, countTo(view.first, units, (it) => it.begun) - 1); i < units.length; i++) {
    const unit = units[i];
    if (unit.begun > last) return;
    const words = 'unit ' + unit.number + ': ' + rangeText(unit.slba, unit.blocks);
    const kind = unit.exclusive ? 'unit exclusive' : 'unit';
    addBox(svg, kind, top + 2, unit.begun, unit.last, words, title + ', ' + words, ROW - 10);
  }
}

// Who holds a slot, and who believes so.
function drawSlot(svg, lane, first, last) {
  const changes = past.ofBlock(lane.slot).seen.list;
  for (let i = Math.max(0, countTo(first, changes, (it) => it.step) - 1); i < changes.length; i++) {
    if (changes[i].step > last) break;
    const name = nameOf(changes[i].word);
    const end = i + 1 < changes.length ? changes[i + 1].step : Infinity;
    if (name) addBox(svg, 'held', lane.top, changes[i].step, end, name, 'slot ' + lane.slot + ' is held by ' + name);
  }
  for (const belief of past.slots.get(lane.slot).beliefs) {
    if (belief.begun > last || belief.ended < first) continue;
    const title = belief.name + ' believes that it holds slot ' + lane.slot;
    addBox(svg, 'believed', lane.top + ROW, belief.begun, belief.ended, 'believes: ' + belief.name, title);
  }
}

// The cells of blocks, each in the row of its entry, and the marks.
function drawCells(svg, first, last) {
  for (let step = first; step <= last; step++) {
    const made = past.steps[step];
    if (made.mark) add(svg, 'line', { class: 'mark', x1: middle(step), x2: middle(step), y1: 0, y2: bottom() });
    const entry = made.entries[made.found === 'written' ? made.entries.length - 1 : 0];
    const lane = entry && lanes.find((it) => it.queue === entry.queue);
    if (made.kind !== 'block' || !lane) continue;
    const top = lane.top + entry.row * ROW + 2;
    const width = Math.max(2, view.width * 0.86);
    const place = { x: middle(step) - width / 2, y: top, width, height: ROW - 10, rx: 3 };
    const cell = add(svg, 'rect', { class: made.found === 'differs' ? 'cell failed' : 'cell', ...place });
    addTitle(cell, past.words(step));
    const words = made.found + ' ' + made.lba + (made.mark ? ' *' : '');
    const room = Math.floor((width - 6) / 7);
    if (room > 1) add(svg, 'text', { class: 'inner', x: middle(step), y: top + 11 }, words.slice(0, room));
  }
}

// A column that is chosen, or that has a bad step.
function drawColumn(svg, kind, step, height) {
  if (step) add(svg, 'rect', { class: kind, x: middle(step) - view.width / 2, y: 0, width: view.width, height });
}

// The rule above a lane.
function drawRule(svg, lane) {
  const y = lane.top - GAP / 2;
  add(svg, 'line', { class: 'rule', x1: 0, x2: svg.clientWidth, y1: y, y2: y });
}

function drawPicture(first, last) {
  const svg = at('picture');
  svg.replaceChildren();
  svg.setAttribute('height', bottom());
  drawColumn(svg, 'chosen', view.step, bottom());
  drawColumn(svg, 'bad', past.bad, bottom());
  for (const lane of lanes) drawRule(svg, lane);
  const rowOf = (lane, item) => lane.top + item.row * ROW;
  for (const entry of past.entriesIn(first, last)) {
    const top = rowOf(lanes.find((it) => it.queue === entry.queue), entry);
    if (isInSight(top)) drawEntry(svg, top, entry);
  }
  for (const entry of past.waitsIn(first, last)) {
    const top = rowOf(lanes.find((it) => it.waits === (entry.queue - 1) % past.cqs), entry.wait);
    const words = 'CID ' + entry.cid + ': ' + entry.status;
    const kind = entry.good ? 'good' : 'failed';
    if (isInSight(top)) addBox(svg, kind, top, entry.posted, entry.reaped, words, entry.title);
  }
  for (const ticket of past.ticketsIn(first, last)) {
    const top = rowOf(lanes.find((it) => it.tickets), ticket);
    if (isInSight(top)) drawTicket(svg, top, ticket, last);
  }
  for (const lane of lanes) if ('slot' in lane && isInSight(lane.top)) drawSlot(svg, lane, first, last);
  drawCells(svg, first, last);
}

function drawHeads(first, last) {
  const svg = at('heads');
  svg.replaceChildren();
  drawColumn(svg, 'chosen', view.step, 40);
  drawColumn(svg, 'bad', past.bad, 40);
  const stride = [1, 2, 5, 10, 20, 50, 100].find((it) => it * view.width >= 56);
  for (let step = first; step <= last; step++) {
    if (step % stride === 0) add(svg, 'text', { class: 'number', x: middle(step), y: 15 }, step);
    if (view.width >= 56) add(svg, 'text', { class: 'kind', x: middle(step), y: 33 }, past.steps[step].kind);
    if (!past.steps[step].mark || view.width < 12) continue;
    add(svg, 'text', { class: 'star', x: middle(step) + Math.min(26, view.width * 0.3), y: 38 }, '*');
  }
}

function drawNames() {
  const svg = at('names');
  svg.replaceChildren();
  svg.setAttribute('height', bottom());
  for (const lane of lanes) {
    drawRule(svg, lane);
    add(svg, 'text', { class: 'name', x: 8, y: lane.top + 13 }, lane.name);
  }
}

// The columns in sight.
function columns() {
  return Math.max(1, at('picture').clientWidth / view.width);
}

function draw() {
  view.drawing = false;
  view.first = Math.max(1, Math.min(view.first, past.count - columns() + 1.5));
  const first = Math.max(1, Math.floor(view.first));
  const last = Math.min(past.count, Math.ceil(view.first + columns()));
  drawHeads(first, last);
  drawPicture(first, last);
}

function redraw() {
  if (!view.drawing) requestAnimationFrame(draw);
  view.drawing = true;
}
";
