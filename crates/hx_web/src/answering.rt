//! What each request gets.
ghost use Rattle.std.specs.Prelude.{◌≡◌, ◌++◌, ◌∷◌, [], IsTrue, OnOk, IfOk, false, codes, option_copied, bytes_eq};
ghost use Rattle.http_header.specs.FieldValue.{is_visible_text};
ghost use Rattle.http_server.specs.Response.{IsBlank, IsResponse, fields_of};
ghost use Rattle.json.specs.Print.{print};
ghost use Rattle.hx_web.specs.Answers.{closed, discreet, safe, upgrade, Gives, Refuses, GivesChart, GoesOver, Answers, book_text, joined, sheet_tokens, trades_tokens, chart_path, charted};
ghost use Rattle.hx_market_view.specs.Texts.{Adds, array_member};

use crate::asked::Asked;
use crate::assets::{CHART, DOCUMENT, SCRIPT, STYLE};
use crate::handshake::{accepted, is_local};
use bytes::{BufMut, Bytes};
use http::header::{HeaderMap, HeaderName};
use http::{HeaderValue, Request, StatusCode, header};
use http_server::{Response, Service};
use hx_market_view::{MarketView, Sheet, write_name, write_number, write_trades};
use json::Writer;
use std::alloc::{AllocError, Global};

const HTML: &str = "text/html; charset=utf-8";

const CSS: &str = "text/css; charset=utf-8";

const JAVASCRIPT: &str = "text/javascript; charset=utf-8";

const JSON: &str = "application/json";

// Nothing from elsewhere, nothing inside a line of the web page, and the web page in no frame (CSP Level 3).
const POLICY: &str = "default-src 'none'; script-src 'self'; style-src 'self'; connect-src 'self'; \
    img-src data:; base-uri 'none'; form-action 'none'; frame-ancestors 'none'";

/// The web pages of a market view, as a service.
#[derive(Drop)]
pub struct WebService<'a> {
    /// The market view.
    pub market_view: &'a MarketView,
    /// Whether a request was answered.
    pub is_read: bool,
    alloc: Global,
}

fn add(response: &mut Response, name: HeaderName, value: &'static str) -> Result<(), AllocError>
    requires { IsTrue (is_visible_text value.now) }
    ensures { OnOk result (IsResponse response.old.status
        (fields_of response.old ++ (name, value.now) ∷ []) response.old.body.items response.new) }
{
    response.add_header(name, HeaderValue::from_static(value))
}

// Adds the headers that nothing comes from elsewhere, and that the web page is in no frame.
fn close(response: &mut Response) -> Result<(), AllocError>
    ensures { OnOk result (IsResponse response.old.status (fields_of response.old ++ closed)
        response.old.body.items response.new) }
{
    add(response, header::CONTENT_SECURITY_POLICY, POLICY)?;
    add(response, header::X_FRAME_OPTIONS, "DENY")
}

// Adds the headers that forbid guessing the answer's type, sending a referrer and storing the answer.
fn hush(response: &mut Response) -> Result<(), AllocError>
    ensures { OnOk result (IsResponse response.old.status (fields_of response.old ++ discreet)
        response.old.body.items response.new) }
{
    add(response, header::X_CONTENT_TYPE_OPTIONS, "nosniff")?;
    add(response, header::REFERRER_POLICY, "no-referrer")?;
    add(response, header::CACHE_CONTROL, "no-store")
}

// Adds the headers that isolate a web page.
fn protect(response: &mut Response) -> Result<(), AllocError>
    ensures { OnOk result (IsResponse response.old.status (fields_of response.old ++ safe)
        response.old.body.items response.new) }
{
    close(response)?;
    hush(response)
}

// Adds the headers that offer a WebSocket.
fn offer(response: &mut Response) -> Result<(), AllocError>
    ensures { OnOk result (IsResponse response.old.status (fields_of response.old ++ upgrade)
        response.old.body.items response.new) }
{
    add(response, header::UPGRADE, "websocket")?;
    add(response, header::CONNECTION, "upgrade")
}

fn give(response: &mut Response, media: &'static str, body: &[u8]) -> Result<(), AllocError>
    requires blank { IsBlank response.old }
    requires visible { IsTrue (is_visible_text media.now) }
    ensures { OnOk result (Gives media.now body.now response.new) }
{
    add(response, header::CONTENT_TYPE, media)?;
    protect(response)?;
    response.body.put_slice(body)
}

fn refuse(response: &mut Response, status: StatusCode) -> Result<(), AllocError>
    ensures { OnOk result (IsResponse status (fields_of response.old ++ safe)
        response.old.body.items response.new) }
{
    response.status = status;
    protect(response)
}

// The texts of the stocks, with a comma between each two.
fn join(text: &mut Vec<u8>, sheets: &[Sheet]) -> Result<(), AllocError>
    ensures { OnOk result (text.new.items ≡ text.old.items ++ joined sheets.now) }
{
    let Some((first, others)) = sheets.split_first() else {
        return Ok(());
    };
    text.extend_from_slice(first.text.as_str().as_bytes())?;
    for sheet in others {
        text.push(b',')?;
        text.extend_from_slice(sheet.text.as_str().as_bytes())?;
    }
    Ok(())
}

// The text of all books.
fn book_text(alloc: Global, market_view: &MarketView) -> Result<Vec<u8>, AllocError>
    ensures { IfOk result (λ v. v.items ≡ book_text market_view.now) }
{
    let mut text = Vec::new(alloc);
    text.extend_from_slice(b"{\"feed\":")?;
    text.extend_from_slice(market_view.feed.as_str().as_bytes())?;
    text.extend_from_slice(b",\"stocks\":[")?;
    join(&mut text, &market_view.sheets)?;
    text.extend_from_slice(b"]}")?;
    Ok(text)
}

fn write_sheet(writer: &mut Writer, sheet: &Sheet) -> Result<(), AllocError>
    ensures { Adds result writer.old writer.new (sheet_tokens sheet.now) }
{
    writer.begin_object()?;
    write_name(writer, "stock", &sheet.stock.0)?;
    write_number(writer, "locate", u64::from(sheet.locate))?;
    write_trades(writer, "trades", &sheet.trades)?;
    writer.end_object()
}

#[tactic(auto, unfolding(hx_market_view::specs::Texts::array_member))]
fn write_sheets(writer: &mut Writer, sheets: &[Sheet]) -> Result<(), AllocError>
    ensures { Adds result writer.old writer.new
        (array_member (codes "stocks") sheet_tokens sheets.now) }
{
    writer.key("stocks")?;
    writer.begin_array()?;
    for sheet in sheets {
        write_sheet(writer, sheet)?;
    }
    writer.end_array()
}

// The text of all executions.
fn trades_text(alloc: Global, market_view: &MarketView) -> Result<Vec<u8>, AllocError>
    ensures { IfOk result (λ v. v.items ≡ print (trades_tokens market_view.now)) }
{
    let mut writer = Writer::new(Vec::new(alloc));
    writer.begin_object()?;
    write_sheets(&mut writer, &market_view.sheets)?;
    writer.end_object()?;
    Ok(writer.into_inner())
}

// Whether a path is that of a stock's chart.
fn is_chart_of(alloc: Global, sheet: &Sheet, path: &str) -> Result<bool, AllocError>
    ensures { IfOk result (λ is. is ≡ bytes_eq (chart_path sheet.now) path.now) }
{
    let locate = sheet.locate;
    let own = format!(in alloc; "/chart/{locate}.json")?;
    Ok(own.as_str() == path)
}

// The stock whose chart a path is of.
fn charted<'a>(
    alloc: Global,
    sheets: &'a [Sheet],
    path: &str,
) -> Result<Option<&'a Sheet>, AllocError>
    ensures { IfOk result (λ found. option_copied found ≡ charted path.now sheets.now) }
{
    for sheet in sheets {
        if is_chart_of(alloc, sheet, path)? {
            return Ok(Some(sheet));
        }
    }
    Ok(None)
}

impl<'a> WebService<'a> {
    /// A web page that nobody has read.
    pub fn new(alloc: Global, market_view: &'a MarketView) -> WebService<'a>
        ensures market_view { result.market_view.now ≡ market_view.now }
        ensures unread { result.is_read ≡ false }
    {
        WebService {
            market_view,
            is_read: false,
            alloc,
        }
    }

    // Gives the chart of a path, if there is one.
    fn give_chart(&self, path: &str, response: &mut Response) -> Result<(), AllocError>
        requires { IsBlank response.old }
        ensures { OnOk result
            (GivesChart (charted path.now self.now.market_view.now.sheets.items) response.new) }
    {
        match charted(self.alloc, &self.market_view.sheets, path)? {
            Some(sheet) => give(response, JSON, &sheet.chart(self.alloc)?),
            None => refuse(response, StatusCode::NOT_FOUND),
        }
    }

    // Upgrades to a WebSocket, if that is asked for.
    fn give_live(
        &self,
        headers: &HeaderMap<HeaderValue>,
        response: &mut Response,
    ) -> Result<(), AllocError>
        requires { IsBlank response.old }
        ensures { OnOk result (GoesOver headers.now response.new) }
    {
        let Some(key) = accepted(headers) else {
            response.status = StatusCode::UPGRADE_REQUIRED;
            offer(response)?;
            return protect(response);
        };
        response.status = StatusCode::SWITCHING_PROTOCOLS;
        offer(response)?;
        let Ok(key) = HeaderValue::from_bytes(self.alloc, &key) else {
            return Err(AllocError);
        };
        response.add_header(header::SEC_WEBSOCKET_ACCEPT, key)
    }

    // Gives what is asked.
    fn give(
        &self,
        asked: Asked,
        path: &str,
        headers: &HeaderMap<HeaderValue>,
        response: &mut Response,
    ) -> Result<(), AllocError>
        requires { IsBlank response.old }
        ensures { OnOk result
            (Answers self.now.market_view.now path.now headers.now asked response.new) }
    {
        match asked {
            Asked::Document => give(response, HTML, DOCUMENT.as_bytes()),
            Asked::Style => give(response, CSS, STYLE.as_bytes()),
            Asked::Script => give(response, JAVASCRIPT, SCRIPT.as_bytes()),
            Asked::ChartScript => give(response, JAVASCRIPT, CHART.as_bytes()),
            Asked::Live => self.give_live(headers, response),
            Asked::Book => give(response, JSON, &book_text(self.alloc, self.market_view)?),
            Asked::Trades => give(response, JSON, &trades_text(self.alloc, self.market_view)?),
            Asked::Chart => self.give_chart(path, response),
            Asked::OtherMethod => {
                add(response, header::ALLOW, "GET")?;
                refuse(response, StatusCode::METHOD_NOT_ALLOWED)
            }
        }
    }
}

impl<'a> Service for WebService<'a> {
    ghost use Rattle.std.specs.Prelude.{◌≡◌, true};
    ghost use Rattle.http.specs.Request.{head_of};
    ghost use Rattle.http_uri.specs.Uri.{uri_path};
    ghost use Rattle.hx_web.specs.Answers.{AnswersRequest};

    ghost answers = { λ old request response new.
        AnswersRequest old.market_view.now (head_of request).method (uri_path (head_of request).uri)
        (head_of request).headers response
        × (new.market_view ≡ old.market_view) × (new.is_read ≡ true) };

    fn call(
        &mut self,
        request: &Request<Bytes>,
        response: &mut Response,
    ) -> Result<(), AllocError> {
        if !is_local(request.headers()) {
            refuse(response, StatusCode::FORBIDDEN)?;
            self.is_read = true;
            return Ok(());
        }
        let path = request.uri().path();
        let asked = Asked::by(request.method().as_str(), path);
        self.give(asked, path, request.headers(), response)?;
        self.is_read = true;
        Ok(())
    }
}
