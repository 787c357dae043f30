//! JavaScript of a web page of a history, which isn't proved: it reads the lines.

pub(crate) const READING: &str = "'use strict';
// Reads the lines of a history, once, into what each step is and since when each thing that is shown is so.
const LF = String.fromCharCode(10);
const ZEROS = '00';
const OPERATIONS = { '00': 'Flush', '01': 'Write', '02': 'Read', '05': 'Compare', '08': 'Write Zeroes' };
// After so many steps it is noted what is open, so that each step is found at once.
const STRIDE = 1024;

// The number of some bytes of a text of hexadecimal digits, the lowest byte first; a BigInt where it is large.
function numberAt(hex, place, bytes) {
  const digits = hex.slice(2 * place, 2 * (place + bytes));
  const number = BigInt('0x' + digits.match(/../g).reverse().join(''));
  return number > Number.MAX_SAFE_INTEGER ? number : Number(number);
}

// How many items of a list in order come up to a step.
function countTo(step, list, stepOf) {
  let low = 0;
  let high = list.length;
  while (low < high) {
    const middle = (low + high) >> 1;
    if (stepOf(list[middle]) <= step) low = middle + 1;
    else high = middle;
  }
  return low;
}

// The item of a map, made where there is none.
function itemOf(map, key, make) {
  if (!map.has(key)) map.set(key, make());
  return map.get(key);
}

// The name that a block spells, which holds a slot: its host and the number of its claim.
function nameOf(word) {
  if (word.length !== 1024 || !/^.{8}0{8}.{16}0{992}$/.test(word)) return null;
  const [host, claim] = [numberAt(word, 0, 4), numberAt(word, 8, 8)];
  return host && claim ? 'host ' + host + ', claim ' + claim : null;
}

// Values with the step from which on each is so; a value is so until the next.
class Changes {
  constructor() {
    this.list = [];
  }
  add(step, word, ticket) {
    this.list.push({ step, word, ticket });
  }
  at(step) {
    const count = countTo(step, this.list, (it) => it.step);
    return count ? this.list[count - 1] : null;
  }
  wordAt(step) {
    const change = this.at(step);
    return change ? change.word : ZEROS;
  }
}

// An entry of a submission queue, and the steps that make it; a step that doesn't come is endless.
class Entry {
  constructor(queue, number, hex, data, step) {
    Object.assign(this, { queue, number, data, published: step });
    this.fetched = this.posted = this.reaped = Infinity;
    this.operation = hex.slice(0, 2);
    this.fuse = numberAt(hex, 1, 1) & 3;
    this.cid = numberAt(hex, 2, 2);
    this.slba = numberAt(hex, 40, 8);
    this.blocks = this.operation === '00' ? 0 : numberAt(hex, 48, 2) + 1;
    this.last = lastOf(this.slba, this.blocks);
    this.ticket = null;
    this.status = '';
  }
  get title() {
    const name = OPERATIONS[this.operation] || 'opcode ' + this.operation + 'h';
    const fused = ['', ' (first)', ' (second)', ''][this.fuse];
    const where = this.blocks ? ' of ' + rangeText(this.slba, this.blocks) : '';
    return name + fused + where + ', CID ' + this.cid;
  }
  get writes() {
    return this.operation === '01' || this.operation === '08';
  }
  hasBlock(lba) {
    return lba >= this.slba && lba <= this.last;
  }
  // the word of a block of its data
  wordOf(lba) {
    if (this.operation === '08') return ZEROS;
    this.words = this.words || this.data.split('.');
    return this.words[lba - this.slba];
  }
}

// The last of some blocks; their numbers have 64 bits.
function lastOf(slba, blocks) {
  return typeof slba === 'bigint' ? slba + BigInt(blocks) - 1n : slba + blocks - 1;
}

function rangeText(slba, blocks) {
  return blocks === 1 ? 'block ' + slba : 'blocks ' + slba + ' to ' + lastOf(slba, blocks);
}

// A submission queue and a completion queue: all entries and all completions that were ever there.
class Queue {
  constructor() {
    this.entries = [];
    this.fetched = 0;
    this.rows = [];
  }
  // the lowest row that is free from a step on
  takeRow(item, step) {
    let row = this.rows.findIndex((end) => end < step);
    if (row < 0) row = this.rows.push(0) - 1;
    this.rows[row] = Infinity;
    item.row = row;
  }
  freeRow(item, step) {
    this.rows[item.row] = step;
  }
}

class Past {
  constructor(text) {
    const lines = text.split(LF);
    if (lines[lines.length - 1] === '') lines.pop();
    // what a check says of the whole stands last, where the page is whole
    const last = lines[lines.length - 1];
    this.verdict = last === 'legal' || last.startsWith('bad at ') ? lines.pop() : '';
    this.lines = lines;
    this.count = (lines.length - 1) >> 1;
    this.bad = this.verdict.startsWith('bad at ') ? this.count : 0;
    this.readConfig(lines[0].split(' '));
    this.steps = [{ kind: 'config', entries: [] }];
    this.submissions = Array.from({ length: this.pairs }, () => new Queue());
    this.completions = Array.from({ length: this.cqs }, () => new Queue());
    this.flying = new Queue();
    this.tickets = new Map();
    this.open = { entries: new Set(), waits: new Set(), tickets: new Set(), notes: [] };
    this.blocks = new Map();
    this.slots = new Map();
    for (let step = 1; step <= this.count; step++) this.read(step);
  }

  readConfig(words) {
    const numbers = words.slice(1).map(Number);
    this.volume = numbers[0];
    [this.pairs, this.sqSize, this.cqSize] = numbers.slice(5, 8);
    this.cqs = words[0] === 'config2' ? numbers[9] : this.pairs;
  }

  line(step) {
    return this.lines[step ? 2 * step - 1 : 0];
  }
  words(step) {
    return step ? this.lines[2 * step] : 'the configuration';
  }

  read(step) {
    if (step % STRIDE === 1) this.note();
    const words = this.line(step).split(' ');
    const made = { kind: words[0], entries: [], ticket: null, lba: -1 };
    this.steps.push(made);
    // (a bad step changes nothing; where a page is cut, one may stand last that isn't told)
    if (step !== this.bad) this[words[0]](step, made, words);
  }

  // Notes what is open before a step.
  note() {
    const { entries, waits, tickets, notes } = this.open;
    notes.push({ entries: [...entries], waits: [...waits], tickets: [...tickets] });
  }

  publish(step, made, words) {
    const queue = this.submissions[words[1] - 1];
    for (let i = 2; queue && i < words.length; i += 3) {
      const entry = new Entry(Number(words[1]), queue.entries.length, words[i], words[i + 1], step);
      queue.entries.push(entry);
      queue.takeRow(entry, step);
      this.open.entries.add(entry);
      made.entries.push(entry);
    }
    made.entries.slice(1).forEach((second, i) => this.readSwap(step, made.entries[i], second));
  }

  // A pair on one block that claims, releases or takes over a slot.
  readSwap(step, first, second) {
    const isPair = first.operation === '05' && second.operation === '01' && first.fuse === 1 && second.fuse === 2;
    if (!isPair || first.slba !== second.slba || first.blocks !== 1 || second.blocks !== 1) return;
    const [held, taken] = [nameOf(first.data), nameOf(second.data)];
    if (!(held && second.data === ZEROS) && !(taken && (held || first.data === ZEROS))) return;
    const slot = itemOf(this.slots, first.slba, () => ({ beliefs: [], over: new Set() }));
    if (!taken) this.endBelief(slot, held, step);
    else second.claims = { slot, name: taken, from: held };
  }

  endBelief(slot, name, step) {
    slot.over.add(name);
    for (const belief of slot.beliefs) if (belief.name === name) belief.ended = Math.min(belief.ended, step);
  }

  fetch(step, made, words) {
    const queue = this.submissions[words[1] - 1];
    const ticket = { id: words[2], fetched: step, ended: Infinity, posts: 0, units: [] };
    ticket.queue = Number(words[1]);
    ticket.entries = queue ? queue.entries.slice(queue.fetched, queue.fetched + Number(words[3])) : [];
    if (queue) queue.fetched += ticket.entries.length;
    for (const entry of ticket.entries) Object.assign(entry, { fetched: step, ticket });
    this.tickets.set(ticket.id, ticket);
    this.flying.takeRow(ticket, step);
    this.open.tickets.add(ticket);
    made.ticket = ticket;
    made.entries = ticket.entries;
  }

  grant(step, made, words) {
    const ticket = this.ofTicket(made, words[1]);
    if (!ticket) return;
    const [slba, blocks] = [Number(words[3]), Number(words[4])];
    made.unit = { number: words[2], slba, blocks, exclusive: words[5] === 'w', begun: step, last: step, cells: [] };
    made.unit.ended = Infinity;
    ticket.units.push(made.unit);
  }

  block(step, made, words) {
    const ticket = this.ofTicket(made, words[1]);
    const [lba, found, mark] = [Number(words[3]), words[4], words[5] === '*'];
    Object.assign(made, { lba, found, mark });
    const unit = ticket && ticket.units[ticket.units.length - 1];
    if (!unit) return;
    unit.last = step;
    unit.cells.push({ step, lba, found, mark });
    const pair = ticket.entries.length === 2;
    if (found === 'differs' || unit.cells.length === unit.blocks * (pair ? 2 : 1)) unit.ended = step;
    const writer = ticket.entries.find((it) => it.writes);
    if (mark && writer) this.takeEffect(step, ticket, unit, writer);
    if (found === 'written' && writer) this.ofBlock(lba).lies.add(step, writer.wordOf(lba), ticket.id);
  }

  ofBlock(lba) {
    return itemOf(this.blocks, lba, () => ({ lies: new Changes(), seen: new Changes() }));
  }

  // A unit that writes takes effect on all its blocks at once: a pair's where each is what is compared.
  takeEffect(step, ticket, unit, writer) {
    const lbas = Array.from({ length: Math.min(unit.blocks, 256) }, (_, i) => unit.slba + i);
    const compared = ticket.entries.find((it) => it.operation === '05');
    if (compared && !lbas.every((lba) => this.ofBlock(lba).seen.wordAt(step) === compared.wordOf(lba))) return;
    for (const lba of lbas) this.ofBlock(lba).seen.add(step, writer.wordOf(lba), ticket.id);
    const claim = writer.claims;
    if (claim && claim.from) this.endBelief(claim.slot, claim.from, step);
  }

  post(step, made, words) {
    const ticket = this.ofTicket(made, words[1]);
    const entry = ticket && ticket.entries[ticket.posts];
    if (!entry) return;
    ticket.posts += 1;
    made.entries = [entry];
    const code = numberAt(words[2], 14, 2) >> 1;
    entry.posted = step;
    entry.completion = words[2];
    entry.good = code === 0;
    entry.status = ((code >> 8) & 7) + '/' + (code & 255).toString(16).toUpperCase().padStart(2, '0');
    const queue = this.completions[(entry.queue - 1) % this.cqs];
    entry.place = queue.entries.push(entry) - 1;
    entry.wait = { entry };
    queue.takeRow(entry.wait, step);
    this.open.waits.add(entry);
    if (ticket.posts < ticket.entries.length) return;
    ticket.ended = step;
    this.flying.freeRow(ticket, step);
    this.open.tickets.delete(ticket);
  }

  reap(step, made, words) {
    const queue = this.completions[words[1] - 1];
    const entry = queue && queue.entries[queue.fetched];
    if (!entry) return;
    queue.fetched += 1;
    made.entries = [entry];
    made.ticket = entry.ticket;
    entry.reaped = step;
    queue.freeRow(entry.wait, step);
    this.submissions[entry.queue - 1].freeRow(entry, step);
    this.open.waits.delete(entry);
    this.open.entries.delete(entry);
    const claim = entry.claims;
    if (claim && entry.good && !claim.slot.over.has(claim.name)) {
      claim.slot.beliefs.push({ name: claim.name, begun: step, ended: Infinity });
    }
  }

  ofTicket(made, id) {
    made.ticket = this.tickets.get(id) || null;
    made.entries = made.ticket ? made.ticket.entries : [];
    return made.ticket;
  }

  // What is open somewhere from one step to another: what was open before, and what steps began.
  openIn(first, last, which, begunBy) {
    const note = this.open.notes[Math.max(0, Math.ceil(first / STRIDE) - 1)];
    const found = new Set(note ? note[which] : []);
    for (let step = (Math.max(1, Math.ceil(first / STRIDE)) - 1) * STRIDE + 1; step <= last; step++) {
      for (const item of begunBy(this.steps[step])) found.add(item);
    }
    return found;
  }
  entriesIn(first, last) {
    const begun = (made) => (made.kind === 'publish' ? made.entries : []);
    return [...this.openIn(first, last, 'entries', begun)].filter((it) => it.reaped >= first);
  }
  waitsIn(first, last) {
    const begun = (made) => (made.kind === 'post' ? made.entries.filter((it) => it.wait) : []);
    return [...this.openIn(first, last, 'waits', begun)].filter((it) => it.reaped >= first);
  }
  ticketsIn(first, last) {
    const begun = (made) => (made.kind === 'fetch' && made.ticket ? [made.ticket] : []);
    return [...this.openIn(first, last, 'tickets', begun)].filter((it) => it.ended >= first);
  }

  // ---- what is so behind a step

  // The entries that wait in a submission queue.
  submitted(queue, step) {
    const entries = this.submissions[queue].entries;
    const first = countTo(step, entries, (it) => it.fetched);
    return entries.slice(first, countTo(step, entries, (it) => it.published));
  }
  // The completions that wait in a completion queue.
  completed(queue, step) {
    const entries = this.completions[queue].entries;
    const first = countTo(step, entries, (it) => it.reaped);
    return entries.slice(first, countTo(step, entries, (it) => it.posted));
  }
  flyingAt(step) {
    return this.ticketsIn(step, step).filter((it) => it.fetched <= step && it.ended > step);
  }
  believersOf(slot, step) {
    return slot.beliefs.filter((it) => it.begun <= step && it.ended > step).map((it) => it.name);
  }
  // The blocks that were written up to a step, in order.
  blocksAt(step) {
    const written = [...this.blocks].filter(([, it]) => it.lies.at(step) || it.seen.at(step));
    return written.sort(([a], [b]) => a - b);
  }
  holderOf(lba, step) {
    return nameOf(this.ofBlock(lba).seen.wordAt(step));
  }
}
";
