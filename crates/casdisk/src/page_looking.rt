//! JavaScript of a web page of a history, which isn't proved: it tells of a step, and finds steps.

pub(crate) const LOOKING: &str =
    "// Shows what is so behind a step, finds steps, and does what the pointer and the keys ask.
// ---- what is so behind a step

// Fills a table with rows of cells; a cell that is a pair has more to tell where the pointer rests.
function fill(id, rows) {
  const body = at(id).tBodies[0];
  body.replaceChildren();
  for (const cells of rows.length ? rows : [['none']]) {
    const row = body.insertRow();
    for (const cell of cells) {
      const [text, title] = Array.isArray(cell) ? cell : [cell, ''];
      const made = row.insertCell();
      made.textContent = text;
      if (title) made.title = title;
    }
  }
}

function blockCell(word) {
  return [nameOf(word) || (word.length > 24 ? word.slice(0, 24) + '..' : word), word];
}

function blockRows() {
  const from = Number(at('from').value) || 0;
  const written = past.blocksAt(view.step).filter(([lba]) => lba >= from);
  const rows = written.slice(0, LISTED).map(([lba, block]) => {
    const change = block.lies.at(view.step);
    const since = change ? 'step ' + change.step + ', ticket ' + change.ticket : '';
    return [lba, blockCell(block.lies.wordAt(view.step)), blockCell(block.seen.wordAt(view.step)), since];
  });
  if (written.length > LISTED) rows.push(['more from block ' + written[LISTED][0] + ' on']);
  return rows;
}

function slotRows() {
  return lanes.filter((lane) => 'slot' in lane).slice(0, LISTED).map((lane) => {
    const believers = past.believersOf(past.slots.get(lane.slot), view.step);
    return [lane.slot, past.holderOf(lane.slot, view.step) || 'free', believers.join('; ') || 'nobody'];
  });
}

function ticketRow(ticket) {
  const unit = ticket.units.filter((it) => it.begun <= view.step && it.ended > view.step)[0];
  const open = unit ? 'unit ' + unit.number + ', ' + rangeText(unit.slba, unit.blocks) : '';
  return [ticket.id, ticket.queue, ticket.entries.map((it) => it.title).join('; '), open];
}

function showState() {
  const { step } = view;
  const isBad = step > 0 && step === past.bad;
  at('words').textContent = past.words(step);
  at('line').textContent = past.line(step);
  at('reason').textContent = isBad ? past.verdict : '';
  at('reason').hidden = !isBad;
  at('place').textContent = step ? 'Step ' + step + ' (line ' + (step + 1) + ')' : 'Before step 1';
  at('slider').value = at('step').value = step;
  const waiting = (entries, size, text) => entries.map((it) => text(it, size)).join('; ');
  fill('submissions', past.submissions.map((queue, i) => {
    const entries = past.submitted(i, step);
    return [i + 1, entries.length, waiting(entries, past.sqSize, (it, size) => it.number % size + ': ' + it.title)];
  }));
  fill('completions', past.completions.map((queue, i) => {
    const entries = past.completed(i, step);
    const text = (it, size) => it.place % size + ': CID ' + it.cid + ' of queue ' + it.queue + ', ' + it.status;
    return [i + 1, entries.length, waiting(entries, past.cqSize, text)];
  }));
  fill('flying', past.flyingAt(step).map(ticketRow));
  fill('blocks', blockRows());
  fill('slots', slotRows());
}

// Chooses a step, and brings it into sight.
function choose(step, center) {
  view.step = Math.max(0, Math.min(Math.round(step) || 0, past.count));
  const isOut = view.step < view.first + 0.5 || view.step > view.first + columns() - 1.5;
  if (center || isOut) view.first = view.step - columns() / 2 + 0.5;
  showState();
  redraw();
}

// ---- what is looked for

function matcher(query) {
  const words = query.trim().toLowerCase();
  const asked = /^(ticket|cid|block|line|step) *([0-9]+)$/.exec(words);
  if (!asked) return (made, step) => past.words(step).toLowerCase().includes(words);
  const number = Number(asked[2]);
  return {
    ticket: (made) => [made, ...made.entries].some((it) => it.ticket && it.ticket.id === asked[2]),
    cid: (made) => made.entries.some((it) => it.cid === number),
    block: (made) => made.lba === number || (made.kind === 'publish' && made.entries.some((it) => it.hasBlock(number)))
      || Boolean(made.unit && number >= made.unit.slba && number < made.unit.slba + made.unit.blocks),
    line: (made, step) => step === number - 1,
    step: (made, step) => step === number,
  }[asked[1]];
}

function search() {
  const query = at('search').value;
  const isMatch = query.trim() ? matcher(query) : () => false;
  found = [];
  for (let step = 1; step <= past.count; step++) if (isMatch(past.steps[step], step)) found.push(step);
  at('matches').textContent = query.trim() ? found.length + ' found' : '';
}

// Goes to the next step that was found, or to the one before; behind the last comes the first.
function goOn(forward) {
  if (!found.length) return;
  const place = countTo(forward ? view.step : view.step - 1, found, (it) => it);
  const index = (forward ? place : place - 1 + found.length) % found.length;
  choose(found[index], true);
  at('matches').textContent = index + 1 + ' of ' + found.length;
}

// ---- the pointer and the keys

function zoom(width, x) {
  const column = view.first + x / view.width;
  view.width = Math.max(WIDTHS[0], Math.min(width, WIDTHS[1]));
  view.first = column - x / view.width;
  at('zoom').value = Math.log(view.width);
  redraw();
}

function zoomBy(factor) {
  const x = middle(view.step);
  zoom(view.width * factor, x > 0 && x < at('picture').clientWidth ? x : at('picture').clientWidth / 2);
}

function chooseAt(event) {
  const x = event.clientX - at('picture').getBoundingClientRect().left;
  choose(Math.floor(view.first + x / view.width), false);
}

function wheel(event) {
  const x = event.clientX - at('picture').getBoundingClientRect().left;
  const sideways = event.shiftKey ? event.deltaY || event.deltaX : event.deltaX;
  if (event.ctrlKey) zoom(view.width * Math.exp(-event.deltaY / 300), x);
  else if (sideways) view.first += sideways / view.width;
  else return;
  event.preventDefault();
  redraw();
}

const KEYS = {
  ArrowLeft: () => choose(view.step - 1),
  ArrowRight: () => choose(view.step + 1),
  PageUp: () => choose(view.step - Math.floor(columns()), true),
  PageDown: () => choose(view.step + Math.floor(columns()), true),
  Home: () => choose(0, true),
  End: () => choose(past.count, true),
  '+': () => zoomBy(1.25),
  '-': () => zoomBy(0.8),
  '/': () => at('search').focus(),
  n: () => goOn(true),
  N: () => goOn(false),
  b: () => choose(past.bad || view.step, true),
};

function press(event) {
  if (event.ctrlKey || event.altKey || event.metaKey) return;
  if (event.key === 'Escape') document.activeElement.blur();
  if (event.target.id === 'search' && event.key === 'Enter') goOn(!event.shiftKey);
  if (event.target instanceof HTMLInputElement || !Object.hasOwn(KEYS, event.key)) return;
  event.preventDefault();
  KEYS[event.key]();
}

function listen() {
  at('slider').addEventListener('input', () => choose(Number(at('slider').value), true));
  at('step').addEventListener('change', () => choose(Number(at('step').value), true));
  at('zoom').addEventListener('input', () => zoomBy(Math.exp(Number(at('zoom').value)) / view.width));
  at('search').addEventListener('input', search);
  at('next').addEventListener('click', () => goOn(true));
  at('previous').addEventListener('click', () => goOn(false));
  at('to-bad').addEventListener('click', KEYS.b);
  at('from').addEventListener('input', () => fill('blocks', blockRows()));
  at('lanes').addEventListener('scroll', redraw);
  for (const id of ['heads', 'picture']) {
    at(id).addEventListener('click', chooseAt);
    at(id).addEventListener('wheel', wheel, { passive: false });
  }
  document.addEventListener('keydown', press);
  window.addEventListener('resize', redraw);
  window.addEventListener('hashchange', chooseByHash);
}

// The step that is named behind the page's address, as #12.
function chooseByHash() {
  choose(Number(location.hash.slice(1)) || 0, true);
}

function tellVerdict() {
  const unknown = 'the page is cut: it has ' + past.count + ' steps';
  at('verdict').textContent = past.verdict || unknown;
  at('verdict').className = past.verdict === 'legal' ? '' : 'wrong';
  at('to-bad').hidden = !past.bad;
  at('count').textContent = 'of ' + past.count;
}

function begin() {
  past = new Past(at('history').textContent);
  lanes = makeLanes();
  at('slider').max = at('step').max = past.count;
  tellVerdict();
  listen();
  drawNames();
  zoom(view.width, 0);
  chooseByHash();
}

document.addEventListener('DOMContentLoaded', begin);
";
