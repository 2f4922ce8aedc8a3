//! What draws the chart (JavaScript).

/// The chart's script.
pub const CHART: &str = r##""use strict";

// The chart of a stock's day: its executions, and its best bid and offer as they changed.
const MOST_POINTS = 5000;
const SVG = "http://www.w3.org/2000/svg";

function emptyChart() {
    return { trades: [], quotes: [], last: 0, isWhole: false };
}

async function fetchChart(locate) {
    const chart = charts.get(locate);
    chart.isWhole = true;
    try {
        const answer = await fetch("/chart/" + locate + ".json");
        const day = await answer.json();
        const known = new Set(day.trades.map((trade) => trade.match));
        const from = day.quotes.length > 0 ? day.quotes[day.quotes.length - 1].time : -1;
        chart.trades = day.trades.concat(chart.trades.filter((trade) => !known.has(trade.match)));
        chart.quotes = day.quotes.concat(chart.quotes.filter((quote) => quote.time > from));
        isDrawn = false;
    } catch {
        chart.isWhole = false;
    }
}

function extendChart(stock) {
    const chart = charts.get(stock.locate) ?? emptyChart();
    charts.set(stock.locate, chart);
    const known = new Map(chart.trades.slice(-100).map((trade) => [trade.match, trade]));
    const fresh = stock.last.filter((trade) => !known.has(trade.match));
    // More executions than the last ones that are told: the chart is read again.
    if (stock.trades - chart.last > fresh.length && chart.last > 0) chart.isWhole = false;
    chart.last = stock.trades;
    for (const trade of stock.last) {
        if (known.has(trade.match)) known.get(trade.match).broken = trade.broken;
    }
    chart.trades.push(...fresh);
    const bid = stock.bids[0]?.price ?? null;
    const offer = stock.offers[0]?.price ?? null;
    const before = chart.quotes[chart.quotes.length - 1];
    if (!before || before.bid !== bid || before.offer !== offer) {
        chart.quotes.push({ time: feed?.time ?? 0, bid, offer });
    }
    if (chart.trades.length > 2 * MOST_POINTS) chart.trades.splice(0, MOST_POINTS);
    if (chart.quotes.length > 2 * MOST_POINTS) {
        chart.quotes = chart.quotes.filter((_, place) => place % 2 === 0);
    }
}

function draw(name, values, text) {
    const node = document.createElementNS(SVG, name);
    for (const [key, value] of Object.entries(values)) node.setAttribute(key, value);
    if (text !== undefined) node.textContent = text;
    return node;
}

function steps(quotes, side, x, y, end) {
    let path = "";
    let isUp = false;
    quotes.forEach((quote, place) => {
        const price = quote[side];
        const until = place + 1 < quotes.length ? quotes[place + 1].time : end;
        const begun = isUp ? `V${y(price)}` : `M${x(quote.time)} ${y(price)}`;
        if (price !== null) path += begun + "H" + x(until);
        isUp = price !== null;
    });
    return path;
}

function point(trade, x, y) {
    if (!trade.broken) return draw("circle", { cx: x, cy: y.toFixed(1), r: 3, class: "trade" });
    return draw("path", { d: `M${x - 4} ${y.toFixed(1) - 4}l8 8m0 -8l-8 8`, class: "broken" });
}

function drawChart(stock) {
    const chart = charts.get(stock.locate);
    const quoted = chart.quotes.flatMap((quote) => [quote.bid, quote.offer]);
    const prices = chart.trades.map((trade) => trade.price)
        .concat(quoted.filter((price) => price !== null));
    const svg = at("chart");
    if (prices.length === 0) {
        svg.replaceChildren();
        set(at("chart-text"), "No prices yet.");
        return;
    }
    const low = prices.reduce((a, b) => Math.min(a, b));
    const high = prices.reduce((a, b) => Math.max(a, b));
    const times = chart.trades.concat(chart.quotes).map((point) => point.time);
    const start = times.reduce((a, b) => Math.min(a, b));
    const end = Math.max(times.reduce((a, b) => Math.max(a, b)), feed?.time ?? 0, start + 1);
    const [left, foot] = svg.clientWidth < 500 ? [130, 440] : [90, 230];
    const x = (time) => (left + (780 - left) * (time - start) / (end - start)).toFixed(1);
    const part = (price) => high === low ? 0.5 : (price - low) / (high - low);
    const height = (price) => foot - 10 - (foot - 30) * part(price);
    const y = (price) => height(price).toFixed(1);
    const marks = [low, high]
        .map((price) => draw("text", { x: 4, y: height(price) + 4 }, dollars(price)));
    const hours = [[start, "start"], [end, "end"]].map(([time, anchor]) =>
        draw("text", { x: x(time), y: foot + 26, "text-anchor": anchor }, clock(time)));
    svg.setAttribute("viewBox", `0 0 800 ${foot + 36}`);
    svg.replaceChildren(
        draw("path", { d: `M${left} 10V${foot}H790`, class: "rule", fill: "none" }),
        ...marks, ...hours,
        draw("path", { d: steps(chart.quotes, "bid", x, y, end), class: "bid" }),
        draw("path", { d: steps(chart.quotes, "offer", x, y, end), class: "offer" }),
        ...chart.trades.map((trade) => point(trade, Number(x(trade.time)), height(trade.price))));
    set(at("chart-text"), `${stock.stock} from ${clock(start)} to ${clock(end)}, between `
        + `${dollars(low)} and ${dollars(high)}: ${chart.trades.length} executions.`);
}
"##;
