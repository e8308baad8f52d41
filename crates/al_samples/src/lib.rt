//! Whole programs of the language.
#![tactic(auto)]

pub const P1: &str = "int main(void) { printf(\"%ld\\n\", 2 + 3); }
";

pub const P2: &str = "int main(void) {
  long m = -9223372036854775807 - 1;
  printf(\"%ld %ld %ld %ld\\n\", m / -1, m % -1, 1 << 64, -1 >> 1);
}
";

pub const P3: &str = "int main(void) {
  long s = 7;
#pragma alter RAW OutOfOrder reduce(*: s)
  for (long i = 5; i < 5; i++) { s *= 2; printf(\"x\"); }
  printf(\"%ld\\n\", s);
  return 0;
}
";

pub const P4: &str = "long x, y;
int main(void) {
  long i;
#pragma alter RAW InOrder
  for (i = 0; i < 2; i++) {
    if (i == 0) x = y + 1; else y = x + 1;
  }
  printf(\"%ld %ld\\n\", x, y);
  return 0;
}
";

pub const P5: &str = "long x, y;
int main(void) {
  long i;
#pragma alter RAW OutOfOrder
  for (i = 0; i < 3; i++) {
    if (i == 0) x = 1;
    if (i == 1) y = x;
    printf(\"%ld \", i);
  }
  return 0;
}
";

pub const P6: &str = "long d;
int main(void) {
#pragma alter RAW InOrder
  for (long i = 0; i < 2; i++) {
    if (i == 0) d = 1;
    else printf(\"%ld\\n\", 10 / d);
  }
}
";

pub const P7: &str = "long d;
int main(void) {
#pragma alter RAW InOrder
  for (long i = 0; i < 2; i++) {
    if (i == 0) d = 1;
    else while (d == 0) ;
  }
  printf(\"ok\\n\");
}
";

pub const P8: &str = "int main(void) {
#pragma alter RAW InOrder
  for (long i = 0; i < 2; i++)
    for (long j = 0; j < 20; j++) ;
  printf(\"ok\\n\");
}
";

pub const P9: &str = "int main(void) {
  long s = 7;
#pragma alter NONE OutOfOrder reduce(+: s)
  for (long i = 0; i < 4; i++) s += input(i);
  printf(\"%ld\\n\", s);
}
";

pub const P10: &str = "struct node { long v; struct node *next; };
struct node *head;
int main(void) {
#pragma alter RAW InOrder
  for (long i = 0; i < 6; i++) {
    struct node *p = calloc(1, sizeof(struct node));
    p->v = i;
    p->next = head;
    head = p;
  }
  for (struct node *q = head; q != NULL; q = q->next) printf(\"%ld \", q->v);
  return 0;
}
";

pub const P11: &str = "struct box { long a[2]; struct box *p; };
struct box g;
int main(void) {
  long *q = &g.a[0];
  g.p = &g;
  printf(\"%ld\\n\", q[2]);
}
";

pub const P12: &str = "int main(void) {
  long n = 16777217;
  printf(\"go \");
#pragma alter NONE InOrder
  for (long i = 0; i < n; i++) ;
}
";

pub const P13: &str = "long a[3];
int main(void) {
  long *p = a;
#pragma alter RAW InOrder
  for (long i = 0; i < 5; i++) {
    printf(\"%ld \", i);
    p[i] = i;
  }
}
";

pub const P14: &str = "int main(void) {
#pragma alter RAW InOrder
  for (long i = 0; i < 9; i++) { if (i == 3) break; }
}
";

pub const P15: &str = "#include <stdio.h>
#include <stdlib.h>
// K-means over whole numbers
struct point { int x, y; int c; };
struct point pts[1000], mid[8];
int dist(struct point *a, struct point *b) {
  int dx = a->x - b->x, dy = a->y - b->y;
  return dx * dx + dy * dy;
}
int main(void) {
  int i, k;
  for (i = 0; i < 1000; i++) { pts[i].x = i % 8 * 100; pts[i].y = i % 8 * 50; }
  for (k = 0; k < 8; k++) { mid[k].x = k * 100 + 3; mid[k].y = k * 50 + 1; }
  for (int step = 0; step < 2; step++) {
    int cost = 0, used = 0;
#pragma alter WAW OutOfOrder reduce(+: cost)
    for (i = 0; i < 1000; i++) {
      int best = 0;
      for (int j = 1; j < 8; j++)
        if (dist(&pts[i], &mid[j]) < dist(&pts[i], &mid[best])) best = j;
      pts[i].c = best;
      cost += dist(&pts[i], &mid[best]);
    }
#pragma alter WAW OutOfOrder reduce(+: used)
    for (k = 0; k < 8; k++) {
      int n = 0, sx = 0, sy = 0;
      for (int j = 0; j < 1000; j++)
        if (pts[j].c == k) { n++; sx += pts[j].x; sy += pts[j].y; }
      if (n > 0) { mid[k].x = sx / n; mid[k].y = sy / n; }
      used += n;
    }
    printf(\"step %d cost %d used %d\\n\", step, cost, used);
  }
  return 0;
}
";

/// An object that is freed twice.
pub const FREES_TWICE: &str = "struct n { long v; };
int main(void) {
  struct n *p = calloc(1, sizeof(struct n));
  p->v = 4;
  printf(\"%ld\\n\", p->v);
  free(NULL);
  free(p);
  free(p);
}
";

/// An object that an iteration frees, and the next one would write.
pub const FREES_IN_A_LOOP: &str = "struct n { long v; };
struct n *g;
int main(void) {
  g = calloc(1, sizeof(struct n));
#pragma alter RAW InOrder
  for (long i = 0; i < 2; i++) {
    if (i == 0) { free(g); g = NULL; }
    else if (g != NULL) g->v = 5;
  }
  printf(\"%ld\\n\", g == NULL);
}
";
