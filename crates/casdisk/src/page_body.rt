//! What stands in a web page of a history besides its lines.

pub(crate) const BODY: &str = "<header>
<span id='verdict'></span>
<button id='to-bad' hidden>Go to the bad step (b)</button>
<label>Search <input id='search' type='search' placeholder='ticket 5, CID 7, block 3, line 12, or words'></label>
<button id='previous' title='The one before (N)'>Previous</button>
<button id='next' title='The next one (n)'>Next</button>
<output id='matches'></output>
<label>Zoom <input id='zoom' type='range' min='1.1' max='5.3' step='any'></label>
<details><summary>Keys</summary>
Left, Right: a step. Page Up, Page Down: a screen. Home, End. + and -: zoom. /: search.
n, N: the next one found, the one before. b: the bad step. Shift and the wheel: sideways.
Ctrl and the wheel: zoom. #12 behind the address: step 12.
</details>
</header>
<div class='row'><span></span><svg id='heads'></svg></div>
<main id='lanes' class='row' tabindex='0' aria-label='Picture'><svg id='names'></svg><svg id='picture'></svg></main>
<div id='steps'>
<label>Step <input id='step' type='number' min='0'></label><span id='count'></span>
<input id='slider' type='range' min='0' aria-label='Step'>
</div>
<section id='state'>
<div><h2 id='place'></h2><p id='words'></p><p id='reason' class='wrong' hidden></p><pre id='line'></pre></div>
<div><h2>Slots</h2>
<table id='slots'><thead><tr><th>Block<th>Held by<th>Believed by<tbody></table></div>
<div><h2>Blocks <label>from <input id='from' type='number' min='0' value='0'></label></h2>
<table id='blocks'><thead><tr><th>Block<th>Lies there<th>Observers see<th>Written<tbody></table></div>
<div><h2>Submission queues</h2>
<table id='submissions'><thead><tr><th>Queue<th>Wait<th>Place: entry<tbody></table></div>
<div><h2>Completion queues</h2>
<table id='completions'><thead><tr><th>Queue<th>Wait<th>Place: completion<tbody></table>
</div>
<div><h2>Tickets in flight</h2>
<table id='flying'><thead><tr><th>Ticket<th>Queue<th>Commands<th>Open unit<tbody></table></div>
</section>
";
