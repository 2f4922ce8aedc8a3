//! What the web page does (JavaScript).

/// The script.
pub const SCRIPT: &str = r##""use strict";

const DOLLAR = 10000;
const SECOND = 1e9;
const HOURS = {
    "": "before the first code", O: "messages have begun", S: "system hours", Q: "market hours",
    M: "market hours are over", E: "system hours are over", C: "messages have ended",
};

const stocks = new Map();
const charts = new Map();
let feed = null;
let feedRate = rateOf();
let chosen = null;
let heard = 0;
let coming = [];
let isNew = true;
let isOpen = false;
let isDrawn = true;

const at = (id) => document.getElementById(id);

function set(node, text) {
    if (node.textContent !== text) node.textContent = text;
}

function dollars(price) {
    if (price === null || price === undefined) return "–";
    return Math.floor(price / DOLLAR) + "." + String(price % DOLLAR).padStart(4, "0");
}

function clock(time) {
    const seconds = Math.floor(time / SECOND);
    const two = (number) => String(number).padStart(2, "0");
    const millis = String(Math.floor(time % SECOND / 1e6)).padStart(3, "0");
    const minutes = Math.floor(seconds / 60);
    return [Math.floor(minutes / 60), minutes % 60, seconds % 60].map(two).join(":") + "." + millis;
}

function stateOf(stock) {
    return stock.halted ? "■ halted" : "▶ trading";
}

// ---- how many messages came in the last second

function rateOf() {
    const counts = [];
    return (count) => {
        const now = performance.now();
        counts.push([now, count]);
        while (counts.length > 1 && now - counts[1][0] >= 1000) counts.shift();
        const passed = Math.max(now - counts[0][0], 1000);
        return Math.round((count - counts[0][1]) * 1000 / passed);
    };
}

// ---- tables

function rowsOf(body, count, make) {
    while (body.rows.length > count) body.deleteRow(-1);
    while (body.rows.length < count) make(body.insertRow(-1));
    return body.rows;
}

function cells(row, count) {
    for (let place = 0; place < count; place++) row.insertCell(-1);
}

function headOf() {
    const head = document.createElement("th");
    head.scope = "row";
    return head;
}

function drawStocks() {
    const listed = [...stocks.values()];
    const rows = rowsOf(at("stocks").tBodies[0], listed.length, (row) => {
        const head = headOf();
        const button = document.createElement("button");
        button.type = "button";
        head.append(button);
        row.append(head);
        cells(row, 7);
    });
    listed.forEach((stock, place) => {
        const row = rows[place];
        const button = row.cells[0].firstChild;
        const isChosen = stock.locate === chosen;
        const bid = stock.bids[0] || {};
        const offer = stock.offers[0] || {};
        const last = stock.last.filter((trade) => !trade.broken).pop() || {};
        set(button, stock.stock);
        button.onclick = () => choose(stock.locate);
        button.setAttribute("aria-pressed", String(isChosen));
        row.className = isChosen ? "chosen" : "";
        row.cells[1].className = stock.halted ? "halted" : "";
        [stateOf(stock), String(bid.shares ?? "–"), dollars(bid.price), dollars(offer.price),
            String(offer.shares ?? "–"), dollars(last.price), String(stock.rate(stock.messages))]
            .forEach((text, cell) => set(row.cells[cell + 1], text));
    });
}

function drawSide(id, levels, largest) {
    const table = at(id);
    const isAll = document.querySelector("#choice input:checked").value === "all";
    const shown = isAll ? levels : levels.slice(0, 5);
    const part = shown.length < levels.length ? shown.length + " of " : "";
    const unit = levels.length === 1 ? " price" : " prices";
    set(at(id + "-count"), part + levels.length + unit);
    const rows = rowsOf(table.tBodies[0], shown.length, (row) => {
        row.append(headOf());
        cells(row, 3);
        row.cells[3].className = "bars";
        const bar = document.createElement("span");
        bar.className = "bar";
        bar.setAttribute("role", "img");
        row.cells[3].append(bar);
    });
    shown.forEach((level, place) => {
        const row = rows[place];
        const width = Math.round(100 * level.shares / largest);
        set(row.cells[0], dollars(level.price));
        set(row.cells[1], String(level.shares));
        set(row.cells[2], String(level.orders));
        row.cells[3].firstChild.style.width = width + "%";
        row.cells[3].firstChild.setAttribute("aria-label", width + " per cent");
    });
}

function drawTrades(stock) {
    const last = [...stock.last].reverse();
    set(at("trades-count"), String(stock.trades));
    const rows = rowsOf(at("trades").tBodies[0], last.length, (row) => {
        row.append(headOf());
        cells(row, 4);
    });
    last.forEach((trade, place) => {
        [clock(trade.time), dollars(trade.price), String(trade.shares), String(trade.match),
            trade.broken ? "broken" : ""]
            .forEach((text, cell) => set(rows[place].cells[cell], text));
    });
}

function drawFeed() {
    set(at("session"), feed.session);
    set(at("hours"), HOURS[feed.hours] ?? feed.hours);
    set(at("time"), clock(feed.time));
    set(at("messages"), String(feed.messages));
    set(at("rate"), String(feedRate(feed.messages)));
    set(at("missing"), String(feed.missing));
    set(at("asked"), String(feed.asked));
}

// ---- all of it

function drawAll() {
    isDrawn = true;
    if (feed !== null) drawFeed();
    drawStocks();
    const stock = stocks.get(chosen);
    at("one").hidden = stock === undefined;
    if (stock === undefined) return;
    set(at("name"), stock.stock);
    set(at("state"), stateOf(stock));
    at("state").className = stock.halted ? "halted" : "";
    const largest = stock.bids.concat(stock.offers)
        .reduce((most, level) => Math.max(most, level.shares), 1);
    drawSide("bids", stock.bids, largest);
    drawSide("offers", stock.offers, largest);
    drawTrades(stock);
    if (!charts.get(chosen).isWhole) fetchChart(chosen);
    drawChart(stock);
    // What is drawn is of this message of the feed.
    document.body.dataset.message = String(feed?.messages ?? 0);
}

function frame() {
    if (!isDrawn) drawAll();
    requestAnimationFrame(frame);
}

function choose(locate) {
    chosen = locate;
    isDrawn = false;
}

function tellLine() {
    const isSilent = performance.now() - heard > 5000;
    const isOver = feed !== null && feed.over;
    const text = isOver ? "The feed has ended." : !isOpen ? "No connection: trying again."
        : isSilent ? "Connected, and nothing is heard." : "Connected.";
    at("line").className = isOver || (isOpen && !isSilent) ? "" : "alert";
    set(at("line"), text);
    isDrawn = false;
}

function takeStock(message) {
    message.rate = stocks.get(message.locate)?.rate ?? rateOf();
    stocks.set(message.locate, message);
    extendChart(message);
}

// The feed's text is the last of a telling: what came before it is shown with it, and not earlier.
// The first telling of a connection is of all stocks, and nothing of before it is kept.
function take(message) {
    heard = performance.now();
    if (message.session === undefined) {
        coming.push(message);
        return;
    }
    if (isNew) {
        stocks.clear();
        charts.clear();
        feedRate = rateOf();
        isNew = false;
    }
    feed = message;
    coming.forEach(takeStock);
    coming = [];
    if (!stocks.has(chosen)) chosen = stocks.keys().next().value ?? null;
    isDrawn = false;
}

function connect() {
    const socket = new WebSocket("ws://" + location.host + "/live");
    socket.onopen = () => {
        isOpen = true;
        isNew = true;
        coming = [];
        heard = performance.now();
        tellLine();
    };
    socket.onmessage = (event) => take(JSON.parse(event.data));
    socket.onclose = () => {
        isOpen = false;
        tellLine();
        if (feed === null || !feed.over) setTimeout(connect, 1000);
    };
}

at("choice").onchange = () => { isDrawn = false; };
setInterval(tellLine, 500);
requestAnimationFrame(frame);
connect();
"##;
