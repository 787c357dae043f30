//! The style of a web page of a history, by day and by night.

pub(crate) const STYLE: &str =
    ":root{color-scheme:light dark;--ink:#1f2933;--dim:#52606d;--paper:#fff;--panel:#f5f7fa;--rule:#9aa5b1;
--bar:#e9f1fb;--band:#c3d9f3;--edge:#5b84b1;--cell:#fff;--good:#d5efd9;--good-edge:#3f8f52;--bad:#eba0a6;
--bad-edge:#c62f3b;--mark:#b35c00;--chosen:#fff3c4;--wrong:#c62f3b}@media(prefers-color-scheme:dark){:root{
--ink:#e4e7eb;--dim:#9aa5b1;--paper:#12181f;--panel:#1a222c;--rule:#52606d;--bar:#1c2b3d;--band:#29476b;
--edge:#6f9fd8;--cell:#12181f;--good:#1d3d26;--good-edge:#5fb574;--bad:#8f434d;--bad-edge:#ff8a8f;
--mark:#f0a04b;--chosen:#3a3520;--wrong:#ff8a8f}}
*{box-sizing:border-box}
html,body{height:100%;margin:0}
body{display:flex;flex-direction:column;background:var(--paper);color:var(--ink);font:13px system-ui,sans-serif}
header,#steps{display:flex;flex-wrap:wrap;gap:8px 14px;align-items:center;padding:6px 10px;background:var(--panel)}
.wrong{color:var(--wrong);font-weight:bold}
#search{width:19em}
#slider{flex:1}
#step{width:8em}
.row{display:grid;grid-template-columns:130px 1fr}
#lanes{flex:1 1 50%;overflow-y:auto;overflow-x:hidden;min-height:120px;border-top:1px solid var(--rule)}
svg{display:block;width:100%}
#heads{height:40px}
svg text{font:12px monospace;fill:var(--ink)}
.name{font-weight:bold}
.number,.kind,.inner,.star{text-anchor:middle}
svg .kind{fill:var(--dim)}
svg .inner{font-size:11px}
svg .star{font:bold 18px monospace;fill:var(--mark)}
text{pointer-events:none}
.rule{stroke:var(--rule);stroke-opacity:.5}
.bar{fill:var(--bar);stroke:var(--edge)}
.band{fill:var(--band);stroke:var(--edge)}
.cell{fill:var(--cell);stroke:var(--edge)}
.unit{fill:var(--bar);stroke:var(--edge)}
.exclusive{stroke-width:2}
.good,.held{fill:var(--good);stroke:var(--good-edge)}
.failed{fill:var(--bad);stroke:var(--bad-edge);stroke-dasharray:3 2}
.believed{fill:var(--bar);stroke:var(--good-edge);stroke-dasharray:4 3}
.mark{stroke:var(--mark);stroke-dasharray:5 4}
.chosen{fill:var(--chosen)}
.bad{fill:var(--bad);fill-opacity:.45;stroke:var(--bad-edge)}
#state{flex:1 1 40%;overflow:auto;display:grid;gap:0 18px;
grid-template-columns:repeat(auto-fit,minmax(330px,1fr));
padding:4px 10px;border-top:1px solid var(--rule)}
h2{font-size:13px;margin:8px 0 3px}
p{margin:3px 0}
pre{white-space:pre-wrap;overflow-wrap:anywhere;max-height:9em;overflow:auto;color:var(--dim);margin:3px 0}
table{border-collapse:collapse;width:100%}
th,td{text-align:left;vertical-align:top;padding:1px 8px 1px 0;border-bottom:1px solid var(--panel)}
td{overflow-wrap:anywhere}
th{color:var(--dim);font-weight:normal;white-space:nowrap}
td{font-family:monospace}
:focus-visible{outline:2px solid var(--edge)}
";
