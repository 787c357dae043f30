//! A trace is judged in one pass: what is kept of each submission queue, line by line, judges the next line.

ghost use Rattle.std.specs.Prelude.{◌≡◌, ◌&&◌, ◌<◌, ◌∷◌, List, Some, length, nat_lt, slice_get, ℕ};
ghost use Rattle.nvme_model.specs.EntryBytes.{cqe_fields};
ghost use Rattle.nvme_model.specs.declared.config.ConfigNumbers.{ConfigNumbers};
ghost use Rattle.nvme_model.specs.declared.entry.PublishLine.{PublishLine};
ghost use Rattle.trace.specs.declared.options.TraceOptions.{TraceOptions};
ghost use Rattle.trace.specs.declared.seen.ReapedLine.{ReapedLine};
ghost use Rattle.trace.specs.declared.seen.Seen.{Seen};
ghost use Rattle.refutation.specs.LineRules.{is_bad_line, least_fetched};
ghost use Rattle.refutation.specs.Lines.{answer_in, before_entry, is_tidy, published_in, reaped_in, waiting_in};
ghost use Rattle.refutation.specs.QueueBooks.{are_free, book_of, is_bad_by, is_bad_read_by, number_of};
ghost use Rattle.refutation.specs.ReadRules.{is_bad_read_line};

/// What is kept of a submission queue is what the trace tells: its entries, where each one's line begins, which line
/// answers it, who waits, and how many were fetched at least.
pub fn a_book_is_what_a_trace_tells()
    ensures entries { (c : ConfigNumbers) (trace : List Seen) (q : ℕ) →
        (book_of c trace q).entries ≡ published_in trace q }
    ensures starts { (c : ConfigNumbers) (trace : List Seen) (q j : ℕ) → j < length (published_in trace q) →
        slice_get (book_of c trace q).starts j ≡ Some (length (published_in (before_entry trace q j) q)) }
    ensures answers { (c : ConfigNumbers) (trace : List Seen) (q j : ℕ) → j < length (published_in trace q) →
        slice_get (book_of c trace q).answers j ≡ Some (answer_in trace q j) }
    ensures waiting { (c : ConfigNumbers) (trace : List Seen) (q cid : ℕ) →
        number_of (book_of c trace q).waiting cid ≡ waiting_in trace q cid }
    ensures least { (c : ConfigNumbers) (trace : List Seen) (q : ℕ) →
        (book_of c trace q).least ≡ least_fetched c trace q }
{}

/// So it says whether the next Publish leaves a trace tidy, and whether the next completion is bad, also as
/// options read the trace.
pub fn a_book_judges_the_next_line()
    ensures tidy { (c : ConfigNumbers) (trace : List Seen) (p : PublishLine) →
        is_tidy (Seen.Published p ∷ trace)
        ≡ (is_tidy trace && nat_lt p.queue 65536
        && are_free (book_of c trace p.queue).waiting (length (book_of c trace p.queue).entries) p.batch) }
    ensures bad { (c : ConfigNumbers) (trace : List Seen) (r : ReapedLine) →
        is_bad_by c (book_of c trace (cqe_fields r.cqe).sqid) (reaped_in trace r.queue) (is_tidy trace) r
        ≡ is_bad_line c (Seen.Reaped r ∷ trace) }
    ensures read { (o : TraceOptions) (c : ConfigNumbers) (trace : List Seen) (r : ReapedLine) →
        is_bad_read_by o c (book_of c trace (cqe_fields r.cqe).sqid) (reaped_in trace r.queue) (is_tidy trace) r
        ≡ is_bad_read_line o c (Seen.Reaped r ∷ trace) }
{}
