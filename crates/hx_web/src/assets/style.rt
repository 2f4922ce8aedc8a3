//! How the web page looks (CSS).

/// The style.
pub const STYLE: &str = r##":root {
    color-scheme: light dark;
    --paper: #ffffff; --ink: #1b1f24; --quiet: #57606a; --rule: #c8d0d8; --shade: #f2f5f8;
    --bid: #0a5cad; --offer: #a13a00; --trade: #1b1f24; --alert: #b00020;
}
@media (prefers-color-scheme: dark) {
    :root {
        --paper: #14181d; --ink: #e8edf2; --quiet: #a3adb8; --rule: #3a444f; --shade: #1e242b;
        --bid: #7cc0ff; --offer: #ffb074; --trade: #e8edf2; --alert: #ff8a95;
    }
}
* { box-sizing: border-box; }
body {
    margin: 0 auto; padding: 0.75rem; max-width: 75rem; background: var(--paper); color: var(--ink);
    font: 1rem/1.4 system-ui, "DejaVu Sans", sans-serif;
}
h1 { font-size: 1.25rem; margin: 0; }
h2 { font-size: 1.1rem; margin: 1.25rem 0 0.5rem; }
.skip { position: absolute; left: -100vw; }
.skip:focus { left: 0.75rem; background: var(--paper); padding: 0.25rem; }
:focus-visible { outline: 3px solid var(--bid); outline-offset: 2px; }
#line { margin: 0.25rem 0; color: var(--quiet); }
#line.alert, .halted { color: var(--alert); font-weight: bold; }
#feed { display: flex; flex-wrap: wrap; gap: 0.25rem 1.5rem; margin: 0.5rem 0; }
#feed dt { color: var(--quiet); font-size: 0.85rem; }
#feed dd { margin: 0; font-variant-numeric: tabular-nums; }
.wide { overflow-x: auto; }
table { border-collapse: collapse; width: 100%; font-variant-numeric: tabular-nums; }
caption { text-align: left; padding: 0.25rem 0; font-weight: bold; }
#all-text { margin: 0.25rem 0; color: var(--quiet); }
th, td {
    padding: 0.2rem 0.5rem; text-align: right; border-bottom: 1px solid var(--rule);
    white-space: nowrap;
}
thead th.bars { text-align: left; }
thead th {
    color: var(--quiet); font-weight: normal; font-size: 0.85rem; white-space: normal;
    vertical-align: bottom;
}
#stocks :is(th, td):nth-child(-n+2), #trades :is(th:first-child, :last-child) { text-align: left; }
tbody th { font-weight: normal; }
tr.chosen { background: var(--shade); }
button {
    font: inherit; color: inherit; background: none; border: 1px solid var(--rule);
    border-radius: 4px; padding: 0.15rem 0.5rem; cursor: pointer; min-width: 4rem;
}
button[aria-pressed="true"] { border-width: 2px; border-color: var(--ink); font-weight: bold; }
fieldset { border: 0; padding: 0; margin: 0.25rem 0; display: flex; gap: 1rem; }
legend { float: left; margin-right: 1rem; padding: 0; color: var(--quiet); }
#depth { display: grid; grid-template-columns: 1fr 1fr; gap: 1.5rem; align-items: start; }
.bars { text-align: left; }
td.bars { width: 40%; text-align: left; }
.bar { display: inline-block; height: 0.8rem; vertical-align: middle; min-width: 1px; }
#bids .bar { background: var(--bid); }
#offers .bar { border: 2px solid var(--offer); }
figure { margin: 1rem 0; }
svg { width: 100%; height: auto; background: var(--shade); }
svg text { fill: var(--quiet); font-size: 12px; }
svg .bid { stroke: var(--bid); fill: none; stroke-width: 2; }
svg .offer { stroke: var(--offer); fill: none; stroke-width: 2; stroke-dasharray: 6 4; }
svg .trade { fill: var(--trade); }
svg .broken { stroke: var(--alert); stroke-width: 2; }
svg .rule { stroke: var(--rule); }
figcaption { color: var(--quiet); font-size: 0.9rem; }
.key { display: block; }
@media (max-width: 40rem) {
    #depth { grid-template-columns: 1fr; gap: 0.5rem; }
    th, td { padding: 0.2rem 0.3rem; }
    td.bars { width: 30%; }
    svg text { font-size: 28px; }
}
@media (forced-colors: active) {
    .bar { border: 1px solid; }
}
"##;
