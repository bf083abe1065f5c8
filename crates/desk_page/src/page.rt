//! The page, as it is sent. make/page.py writes this file of what is in page/.

/// Its bytes: HTML in ASCII.
pub const PAGE: &[u8] = br##"<!doctype html>
<html lang="en">
<head>
<meta charset="utf-8">
<meta name="viewport" content="width=device-width, initial-scale=1">
<meta name="color-scheme" content="light dark">
<meta name="referrer" content="same-origin">
<link rel="icon" href="data:,">
<title>Desk</title>
<link rel="stylesheet" href="/desk.css">
</head>
<body>
<header>
  <h1 id="desk">Desk</h1>
  <nav aria-label="Views">
    <a href="#today">Today</a><a href="#planner">Planner</a><a href="#shift">Shift</a><a href="#warehouse">Warehouse</a><a href="#quality">Quality</a>
  </nav>
  <form id="finder" role="search">
    <input id="find" data-id list="begun" maxlength="24" autocomplete="off" spellcheck="false" placeholder="Find by id or name"
      aria-label="Find a lot, a batch, an order, a recall, a material or a recipe by its id, a material or a place by its name">
    <datalist id="begun"></datalist>
    <button>Find</button>
  </form>
  <label class="who">Operator <input id="operator" maxlength="60" pattern="[ -~]*" autocomplete="off" placeholder="your name"></label>
  <button id="help" type="button" aria-label="Keys and help">?</button>
  <a id="back" hidden></a>
</header>
<p id="clock" role="status" hidden></p>
<div id="waiting" role="alert"></div>
<main id="view" tabindex="-1"></main>
<footer>
  <div id="notice" role="status" aria-live="polite"></div>
  <div id="stand"></div>
</footer>
<dialog id="dialog" aria-labelledby="title"></dialog>
<div id="paper"></div>
<noscript><p>This page needs JavaScript.</p><p lang="de">Diese Seite braucht JavaScript.</p></noscript>
<script defer src="/values.js"></script>
<script defer src="/desk.js"></script>
<script defer src="/forms.js"></script>
<script defer src="/records.js"></script>
<script defer src="/views.js"></script>
</body>
</html>
"##;

/// Its entity tag.
pub const PAGE_TAG: &str = "\"a4d87048d76e7860b3e733f9eaccce84\"";
