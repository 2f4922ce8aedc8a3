//! The web page (HTML).

/// The web page.
pub const DOCUMENT: &str = r##"<!doctype html>
<html lang="en">
<head>
<meta charset="utf-8">
<meta name="viewport" content="width=device-width, initial-scale=1">
<title>hx: a vendor's screen</title>
<link rel="icon" href="data:,">
<link rel="stylesheet" href="/page.css">
<script src="/chart.js" defer></script>
<script src="/page.js" defer></script>
</head>
<body>
<a class="skip" href="#one">Skip to the chosen stock</a>
<header>
<h1>A vendor's screen</h1>
<p id="line" role="status">Connecting.</p>
<dl id="feed">
<div><dt>Session</dt><dd id="session">–</dd></div>
<div><dt>Hours</dt><dd id="hours">–</dd></div>
<div><dt>Last message</dt><dd id="time">–</dd></div>
<div><dt>Messages</dt><dd id="messages">0</dd></div>
<div><dt>Messages a second</dt><dd id="rate">0</dd></div>
<div><dt>Missing</dt><dd id="missing">0</dd></div>
<div><dt>Asked for</dt><dd id="asked">0</dd></div>
</dl>
<noscript>This page needs its script; /book.json has the same book.</noscript>
</header>
<main>
<section aria-labelledby="all-title">
<h2 id="all-title">Stocks</h2>
<p id="all-text">The best bid and offer of each stock. Choose a stock by its name.</p>
<div class="wide" tabindex="0" role="region" aria-labelledby="all-title">
<table id="stocks" aria-labelledby="all-title" aria-describedby="all-text">
<thead>
<tr><th scope="col">Stock</th><th scope="col">State</th>
<th scope="col">Bid shares</th><th scope="col">Bid</th>
<th scope="col">Offer</th><th scope="col">Offer shares</th><th scope="col">Last</th>
<th scope="col">Messages a second</th></tr>
</thead>
<tbody></tbody>
</table>
</div>
</section>
<section id="one" aria-labelledby="one-title" tabindex="-1" hidden>
<h2 id="one-title"><span id="name"></span> <span id="state" role="status"></span></h2>
<fieldset id="choice">
<legend>Prices of each side</legend>
<label><input type="radio" name="prices" value="5" checked> five</label>
<label><input type="radio" name="prices" value="all"> all</label>
</fieldset>
<div id="depth">
<table id="bids">
<caption>Bids: <span id="bids-count">0 prices</span></caption>
<thead><tr><th scope="col">Price</th><th scope="col">Shares</th><th scope="col">Orders</th>
<th scope="col" class="bars">Share of the largest</th></tr></thead>
<tbody></tbody>
</table>
<table id="offers">
<caption>Offers: <span id="offers-count">0 prices</span></caption>
<thead><tr><th scope="col">Price</th><th scope="col">Shares</th><th scope="col">Orders</th>
<th scope="col" class="bars">Share of the largest</th></tr></thead>
<tbody></tbody>
</table>
</div>
<figure>
<svg id="chart" role="img" aria-labelledby="chart-text" viewBox="0 0 800 266"></svg>
<figcaption>
<span id="chart-text">No prices yet.</span>
<span class="key">Bid: solid line. Offer: dashed line. Execution: dot; broken: cross.</span>
</figcaption>
</figure>
<table id="trades">
<caption>Last executions, <span id="trades-count">0</span> in all</caption>
<thead><tr><th scope="col">Time</th><th scope="col">Price</th><th scope="col">Shares</th>
<th scope="col">Match</th><th scope="col">Note</th></tr></thead>
<tbody></tbody>
</table>
</section>
</main>
</body>
</html>
"##;
