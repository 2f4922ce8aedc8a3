//! What a request asks.
ghost use Rattle.std.specs.Prelude.{◌≡◌};
ghost use Rattle.hx_web.specs.Answers.{asked_by, read_by};

/// What a request asks, by its method and the path of its target.
#[derive(Clone, Copy, Debug, PartialEq, Eq)]
pub enum Asked {
    /// The document of the web page.
    Document,
    /// Its style.
    Style,
    /// Its script.
    Script,
    /// The script that draws its chart.
    ChartScript,
    /// The newest state, sent as it changes.
    Live,
    /// The books of all stocks.
    Book,
    /// The executions of all stocks.
    Trades,
    /// What the path of a chart may be.
    Chart,
    /// Something else than to read what is there.
    OtherMethod,
}

impl Asked {
    /// What a request asks.
    pub fn by(method: &str, path: &str) -> Asked
        ensures { result ≡ asked_by method.now path.now }
    {
        if method != "GET" {
            return Asked::OtherMethod;
        }
        Asked::read(path)
    }

    // What is read at a path.
    fn read(path: &str) -> Asked
        ensures { result ≡ read_by path.now }
    {
        if path == "/" {
            Asked::Document
        } else if path == "/page.css" {
            Asked::Style
        } else if path == "/page.js" {
            Asked::Script
        } else if path == "/chart.js" {
            Asked::ChartScript
        } else if path == "/live" {
            Asked::Live
        } else if path == "/book.json" {
            Asked::Book
        } else if path == "/trades.json" {
            Asked::Trades
        } else {
            Asked::Chart
        }
    }
}
