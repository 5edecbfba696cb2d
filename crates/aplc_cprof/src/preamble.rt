//! The fixed text before and after a program's own, as it is written.
//! It must not know what the text means.

ghost use Rattle.std.specs.Prelude.{◌≡◌};
ghost use Rattle.aplc_cprof.specs.Preamble.{preamble, tail};

const PREAMBLE: &str = r#"#include <stdint.h>
#include <stdio.h>
#include <stdlib.h>
#define TOP INT64_C(9223372036854775807)
static const char *const kinds[7] = {"DOMAIN", "INDEX", "LENGTH", "LIMIT", "RANK", "VALUE", "INPUT"};
static const char *at_name[4096] = {""};
static int64_t at_line[4096];
static int64_t at_top = 0;
static int64_t read_n = 0;
static void at(const char *n, int64_t l) { at_name[at_top] = n; at_line[at_top] = l; }
static void enter(void) { at_top++; at_name[at_top] = ""; at_line[at_top] = 0; }
static void leave(void) { at_top--; }
static void fault(int64_t k) {
fflush(stdout);
fprintf(stderr, "%s ERROR %s[%lld]\n", kinds[k], at_name[at_top], (long long)at_line[at_top]);
while (at_top > 0) {
at_top--;
fprintf(stderr, "FROM %s[%lld]\n", at_name[at_top], (long long)at_line[at_top]);
}
exit(1);
}
static void memory(void) { fflush(stdout); fputs("NO MEMORY\n", stderr); exit(7); }
static int64_t add(int64_t a, int64_t b) {
if (b > 0 ? a > TOP - b : a < -TOP - b) fault(3);
return a + b;
}
static int64_t sub(int64_t a, int64_t b) {
if (b < 0 ? a > TOP + b : a < -TOP + b) fault(3);
return a - b;
}
static int64_t mul(int64_t a, int64_t b) {
if (a != 0 && b != 0) {
int64_t x = a < 0 ? -a : a, y = b < 0 ? -b : b;
if (x > TOP / y) fault(3);
}
return a * b;
}
static int64_t *cells(int64_t n) {
int64_t *p = calloc(n > 0 ? (size_t)n : 1, sizeof *p);
if (!p) memory();
return p;
}
static void drop(int64_t *p) { free(p); }
static int64_t width(int64_t v) {
char t[32];
return snprintf(t, sizeof t, "%lld", (long long)v);
}
static void put_char(int64_t c) {
if (c < 128) { putchar((int)c); return; }
if (c < 2048) putchar((int)(192 + c / 64));
else if (c < 65536) { putchar((int)(224 + c / 4096)); putchar((int)(128 + c / 64 % 64)); }
else {
putchar((int)(240 + c / 262144));
putchar((int)(128 + c / 4096 % 64));
putchar((int)(128 + c / 64 % 64));
}
putchar((int)(128 + c % 64));
}
static void put_num(int64_t v, int64_t w) {
for (int64_t n = width(v); n < w; n++) putchar(' ');
if (v < 0) { put_char(175); v = -v; }
printf("%lld", (long long)v);
}
static int64_t *read_text(void) {
int64_t cap = 64, n = 0, m = 0;
unsigned char *t = malloc((size_t)cap);
if (!t) memory();
int c = getchar();
if (c == EOF) fault(6);
while (c != EOF && c != 10) {
if (n == 2147483647) fault(3);
if (n == cap) {
cap = cap * 2;
t = realloc(t, (size_t)cap);
if (!t) memory();
}
t[n++] = (unsigned char)c;
c = getchar();
}
if (c == 10 && n > 0 && t[n - 1] == 13) n--;
int64_t *p = cells(n);
for (int64_t i = 0; i < n;) {
int64_t a = t[i], k = a < 128 ? 0 : a < 194 ? 9 : a < 224 ? 1 : a < 240 ? 2 : a < 245 ? 3 : 9;
if (k == 9 || k >= n - i) fault(6);
int64_t v = k == 0 ? a : a % (64 >> k);
for (int64_t j = 1; j <= k; j++) {
int64_t d = t[i + j];
if (d / 64 != 2) fault(6);
v = v * 64 + d % 64;
}
if ((k == 2 && v < 2048) || (k == 3 && (v < 65536 || v > 1114111)) || (v >= 55296 && v <= 57343)) fault(6);
p[m++] = v;
i = i + k + 1;
}
free(t);
read_n = m;
return p;
}
static int64_t *read_nums(void) {
int64_t *t = read_text(), n = read_n, m = 0;
int64_t *p = cells(n);
for (int64_t i = 0; i < n;) {
if (t[i] == 32 || t[i] == 9) { i++; continue; }
int64_t s = t[i] == 45 || t[i] == 175, v = 0;
i = i + s;
if (i == n || t[i] < 48 || t[i] > 57) fault(6);
while (i < n && t[i] >= 48 && t[i] <= 57) {
if (v > (TOP - (t[i] - 48)) / 10) fault(6);
v = v * 10 + (t[i] - 48);
i++;
}
if (i < n && t[i] != 32 && t[i] != 9) fault(6);
p[m++] = s ? -v : v;
}
free(t);
read_n = m;
return p;
}
"#;

/// What every program begins with: the library that its functions call.
#[tactic(auto, unfolding(crate::specs::Preamble::preamble, crate::specs::Preamble::preamble_lines))]
pub fn preamble_bytes() -> &'static [u8]
    ensures { result.now ≡ preamble }
{
    PREAMBLE.as_bytes()
}

/// What every program ends with: the start of the function 0.
#[tactic(auto, unfolding(crate::specs::Preamble::tail))]
pub fn tail_bytes() -> &'static [u8]
    ensures { result.now ≡ tail }
{
    b"int main(void) {\nf0();\nreturn 0;\n}\n"
}
